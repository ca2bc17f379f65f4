//! The inputs of a line, by their kinds.

ghost use Rattle.std.specs.Prelude.{◌≡◌, ◌++◌, OnOk, map, string_bytes};
ghost use Rattle.cli_arguments.specs.Inputs.{kinds_at};

use crate::commands::{Kind, Role};
use crate::lines::Line;
use std::alloc::{AllocError, AllocFailed, Global};

/// The inputs of a line by their kinds; those of each kind are in the order of the words.
#[derive(Drop)]
pub struct Inputs<S> {
    pub archives: Vec<S>,
    pub indexes: Vec<S>,
    pub files: Vec<S>,
    pub ops: Vec<S>,
    pub summaries: Vec<S>,
    pub scripts: Vec<S>,
    pub frames: Vec<S>,
}

impl<S> Inputs<S> {
    ghost use Rattle.std.specs.Prelude.{◌≡◌};
    ghost use Rattle.cli_arguments.specs.Inputs.{inputs_view, of_kind};

    /// The inputs of a kind.
    pub fn of_kind(&self, kind: Kind) -> &[S]
        ensures { result.now ≡ of_kind kind (inputs_view self.now) }
    {
        match kind {
            Kind::Archive => &self.archives,
            Kind::Index => &self.indexes,
            Kind::File => &self.files,
            Kind::Ops => &self.ops,
            Kind::Summary => &self.summaries,
            Kind::Script => &self.scripts,
            Kind::Frames => &self.frames,
        }
    }
}

impl<S: Drop> Inputs<S> {
    ghost use Rattle.std.specs.Prelude.{◌≡◌, ◌++◌, ◌∷◌, [], OnOk, if◌then◌else◌};
    ghost use Rattle.cli_arguments.specs.Arguments.{is_kind};
    ghost use Rattle.cli_arguments.specs.Inputs.{inputs_view, of_kind};
    ghost use Rattle.cli_arguments.specs.declared.commands.Kind.{Kind};

    fn new(alloc: Global) -> Inputs<S>
        ensures { (kind : Kind) → of_kind kind (inputs_view result) ≡ [] }
    {
        Inputs {
            archives: Vec::new(alloc),
            indexes: Vec::new(alloc),
            files: Vec::new(alloc),
            ops: Vec::new(alloc),
            summaries: Vec::new(alloc),
            scripts: Vec::new(alloc),
            frames: Vec::new(alloc),
        }
    }

    fn push(&mut self, kind: Kind, input: S) -> Result<(), AllocFailed<S>>
        ensures { OnOk result ((other : Kind) → of_kind other (inputs_view self.new)
            ≡ of_kind other (inputs_view self.old) ++ (if is_kind other kind then input ∷ [] else [])) }
    {
        match kind {
            Kind::Archive => self.archives.push(input),
            Kind::Index => self.indexes.push(input),
            Kind::File => self.files.push(input),
            Kind::Ops => self.ops.push(input),
            Kind::Summary => self.summaries.push(input),
            Kind::Script => self.scripts.push(input),
            Kind::Frames => self.frames.push(input),
        }
    }
}

/// Adds the kinds of the inputs at these paths of an argument.
#[tactic(auto, using(crate::proofs::Picking::kinds_step))]
fn push_kinds(kinds: &mut Vec<Kind>, role: Role, paths: &[String]) -> Result<(), AllocError>
    ensures { OnOk result (kinds.new.items ≡ kinds.old.items ++ kinds_at role (map string_bytes paths.now)) }
{
    let Role::Reads(kind) = role else {
        return Ok(());
    };
    'paths: for _ in paths {
        kinds.push(kind)?;
    }
    Ok(())
}

impl Line {
    ghost use Rattle.std.specs.Prelude.{◌≡◌, IfOk, length};
    ghost use Rattle.cli_arguments.specs.Inputs.{inputs_view, kinds_of, of_kind, picked};
    ghost use Rattle.cli_arguments.specs.LineView.{line_view};
    ghost use Rattle.cli_arguments.specs.Lines.{inputs_of};
    ghost use Rattle.cli_arguments.specs.Plan.{HasInputs, IsPlanOf};
    ghost use Rattle.cli_arguments.specs.declared.plan.Plan.{Plan};
    ghost use Rattle.cli_arguments.specs.declared.commands.Kind.{Kind};

    /// The kinds of the inputs, in the order of the table.
    fn kinds(&self, alloc: Global) -> Result<Vec<Kind>, AllocError>
        ensures { IfOk result (λ kinds. kinds.items ≡ kinds_of (line_view self.now)) }
    {
        let arguments = self.arguments();
        let mut kinds = Vec::new(alloc);
        'arguments: for (argument, values) in arguments.iter().zip(&self.values) {
            push_kinds(&mut kinds, argument.role, values.texts())?;
        }
        Ok(kinds)
    }

    /// Groups these inputs, one for each path of the line in the order of the words, by kind.
    pub fn by_kind<S: Drop>(&self, alloc: Global, inputs: Vec<S>) -> Result<Inputs<S>, AllocError>
        requires { length inputs.items ≡ length (inputs_of (line_view self.now)) }
        ensures picked { IfOk result (λ all. (kind : Kind) → of_kind kind (inputs_view all)
            ≡ picked kind (kinds_of (line_view self.now)) inputs.items) }
        ensures enough { IfOk result (λ all. (plan : Plan) → IsPlanOf plan (line_view self.now)
            → HasInputs plan (inputs_view all)) }
    {
        let kinds = self.kinds(alloc)?;
        let mut all = Inputs::new(alloc);
        'inputs: for (kind, input) in kinds.iter().zip(inputs) {
            all.push(*kind, input)?;
        }
        Ok(all)
    }
}
