//! A command line as its command and values.

ghost use Rattle.std.specs.Prelude.{◌≡◌, ◌++◌, OnOk, map, string_bytes, true};
ghost use Rattle.cli_arguments.specs.ValuesView.{values_view};
ghost use Rattle.cli_arguments.specs.Table.{is_listed};

use crate::commands::{Argument, is_input, is_out, signature_named};
use crate::values::Values;
use std::alloc::{AllocError, Global};

/// A command line: a command of the table, and the values of its arguments in the table's order.
#[derive(Drop)]
pub struct Line {
    pub name: String,
    pub values: Vec<Values>,
    pub ghost of_table: { is_listed (string_bytes name) (map values_view values.items) ≡ true },
}

impl Line {
    ghost use Rattle.std.specs.Prelude.{◌≡◌, IfOk, map, option_map, string_bytes};
    ghost use Rattle.cli_arguments.specs.LineView.{line_view};
    ghost use Rattle.cli_arguments.specs.TableView.{argument_in};
    ghost use Rattle.cli_arguments.specs.Lines.{inputs_of, out_of};
    ghost use Rattle.cli_arguments.specs.Table.{arguments_named};

    /// The arguments of its command.
    pub fn arguments(&self) -> &'static [Argument]
        ensures { map argument_in result.now ≡ arguments_named (string_bytes self.now.name) }
    {
        match signature_named(&self.name) {
            Some(row) => row.arguments,
            None => &[],
        }
    }

    /// The paths of the inputs, in the order of the table.
    pub fn inputs(&self, alloc: Global) -> Result<Vec<&str>, AllocError>
        ensures { IfOk result (λ paths. map (λ p. p.now) paths.items ≡ inputs_of (line_view self.now)) }
    {
        let arguments = self.arguments();
        let mut paths = Vec::new(alloc);
        'arguments: for (argument, values) in arguments.iter().zip(&self.values) {
            if is_input(argument.role) {
                push_paths(&mut paths, values.texts())?;
            }
        }
        Ok(paths)
    }

    /// The path of OUT, if the command writes it.
    pub fn out_path(&self) -> Option<&str>
        ensures { option_map (λ p. p.now) result ≡ out_of (line_view self.now) }
    {
        let arguments = self.arguments();
        'arguments: for (argument, values) in arguments.iter().zip(&self.values) {
            if is_out(argument.role)
                && let Some(path) = values.texts().first()
            {
                return Some(path);
            }
        }
        None
    }
}

/// Adds these paths.
fn push_paths<'p>(paths: &mut Vec<&'p str>, texts: &'p [String]) -> Result<(), AllocError>
    ensures { OnOk result (map (λ p. p.now) paths.new.items
        ≡ map (λ p. p.now) paths.old.items ++ map string_bytes texts.now) }
{
    'texts: for text in texts {
        paths.push(text.as_str())?;
    }
    Ok(())
}
