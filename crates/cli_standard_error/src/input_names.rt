//! The input of a line for each name.

ghost use Rattle.std.specs.Prelude.{◌≡◌, option_map, slice_get};
ghost use Rattle.cli_arguments.specs.Inputs.{inputs_view};
ghost use Rattle.cli_arguments.specs.LineView.{line_view};
ghost use Rattle.cli_arguments.specs.Lines.{inputs_of_kind};
ghost use Rattle.cli_standard_error.specs.Names.{input_at, kind_of, number_of, path_at};

use cli_arguments::{Inputs, Kind, Line, is_input_of};
use command_common::InputName;

/// The kind of the input with this name, and its number among those of its kind.
fn role_of(name: InputName) -> (Kind, usize)
    ensures kind { result.0 ≡ kind_of name }
    ensures number { result.1 ≡ number_of name }
{
    match name {
        InputName::Archive(number) => (Kind::Archive, number as usize),
        InputName::File(number) => (Kind::File, number as usize),
        InputName::Ops => (Kind::Ops, 0),
        InputName::Summary => (Kind::Summary, 0),
        InputName::Script => (Kind::Script, 0),
        InputName::Frames => (Kind::Frames, 0),
        InputName::Index(number) => (Kind::Index, number as usize),
    }
}

/// The path with this number among those of a kind.
fn path_of(line: &Line, kind: Kind, number: usize) -> Option<&str>
    ensures { option_map (λ p. p.now) result
        ≡ slice_get (inputs_of_kind kind (line_view line.now)) number }
{
    let arguments = line.arguments();
    let mut left = number;
    'arguments: for (argument, values) in arguments.iter().zip(&line.values) {
        if is_input_of(argument.role, kind) {
            let paths = values.texts();
            if let Some(path) = paths.get(left) {
                return Some(path);
            }
            left -= paths.len();
        }
    }
    None
}

/// The path of the input with this name.
pub fn path_at(line: &Line, name: InputName) -> Option<&str>
    ensures { option_map (λ p. p.now) result ≡ path_at (line_view line.now) name }
{
    let (kind, number) = role_of(name);
    path_of(line, kind, number)
}

/// The input with this name.
pub fn input_at<S>(inputs: &Inputs<S>, name: InputName) -> Option<&S>
    ensures { option_map (λ input. input.now) result ≡ input_at (inputs_view inputs.now) name }
{
    let (kind, number) = role_of(name);
    inputs.of_kind(kind).get(number)
}
