//! Whether the results are the expected ones: all tests depend on it.

ghost use Rattle.std.specs.Prelude.{◌≡◌, ◌↔◌, ◌≤◌, All, IfSome, IsTrue, None, codes, length, string_bytes};
ghost use Rattle.std.specs.Process.{exit_status};
ghost use Rattle.test_acceptance.specs.Verdicts.{CameAsItStands, IsAsItStands, common_length, parting_line};

use crate::texts::TextFault;
use std::process::ExitCode;

/// A line of a text of cases.
#[derive(Drop)]
pub struct Step {
    pub line: String,
    /// Its expected result, as written after the line.
    pub wanted: String,
    pub came: String,
}

/// The result of a word of the command line.
#[derive(Drop)]
pub struct Outcome {
    /// A subject, or a subject and a case.
    pub word: String,
    /// The lines of the subject or of the case, if they could be carried out.
    pub ended: Result<Vec<Step>, TextFault>,
}

// The length of the common beginning of two texts.
#[tactic(auto, using(crate::proofs::Partings::same_at, crate::proofs::Partings::other_at, crate::proofs::Partings::wanted_ends, crate::proofs::Partings::came_ends))]
fn common_length(wanted: &[u8], came: &[u8]) -> usize
    ensures value { result ≡ common_length wanted.now came.now }
    ensures within { result ≤ length wanted.now }
{
    let mut at = 0;
    while at < wanted.len() && at < came.len() && wanted[at] == came[at] {
        at += 1;
    }
    at
}

/// The first line, counted from 0, that differs between the expected and the actual result, if any.
pub fn first_other_line(wanted: &str, came: &str) -> Option<usize>
    ensures same { result ≡ None ↔ wanted.now ≡ came.now }
    ensures other { IfSome result (λ line. line ≡ parting_line wanted.now came.now) }
{
    if wanted == came {
        return None;
    }
    let same = common_length(wanted.as_bytes(), came.as_bytes());
    let before = &wanted.as_bytes()[..same];
    Some(before.iter().filter(|byte| **byte == b'\n').count())
}

impl Step {
    /// The first line of the expected result, counted from 0, that differs, if any.
    pub fn first_other_line(&self) -> Option<usize>
        ensures same { result ≡ None ↔ IsAsItStands self.now }
        ensures other { IfSome result (λ line. line
            ≡ parting_line (string_bytes self.now.wanted) (string_bytes self.now.came)) }
    {
        first_other_line(self.wanted.as_str(), self.came.as_str())
    }
}

// Whether each of the lines has the expected result.
fn all_as_they_stand(steps: &[Step]) -> bool
    ensures { IsTrue result ↔ All IsAsItStands steps.now }
{
    for step in steps {
        if step.first_other_line().is_some() {
            return false;
        }
    }
    true
}

impl Outcome {
    /// Whether the requested lines were carried out, and each has the expected result.
    pub fn came_as_it_stands(&self) -> bool
        ensures { IsTrue result ↔ CameAsItStands self.now }
    {
        match &self.ended {
            Ok(steps) => all_as_they_stand(steps),
            Err(_) => false,
        }
    }

    /// The text that is printed for it at the end.
    pub fn verdict(&self) -> &'static str
        ensures stands { CameAsItStands self.now → result.now ≡ codes "as it stands" }
        ensures other { ¬ CameAsItStands self.now → result.now ≡ codes "came otherwise" }
    {
        if self.came_as_it_stands() {
            "as it stands"
        } else {
            "came otherwise"
        }
    }
}

/// The exit code of a run: success if all that was requested has the expected results.
pub fn exit_code(outcomes: &[Outcome]) -> ExitCode
    ensures { exit_status result ≡ 0 ↔ All CameAsItStands outcomes.now }
{
    for outcome in outcomes {
        if !outcome.came_as_it_stands() {
            return ExitCode::FAILURE;
        }
    }
    ExitCode::SUCCESS
}
