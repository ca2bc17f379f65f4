//! Keys, as questions to records in order.

ghost use Rattle.std.specs.Prelude.{◌≡◌, []};
ghost use Rattle.std.specs.List.Sorted.{IsSortedByKey};
ghost use Rattle.std.specs.Ordering.{nat_cmp};
ghost use Rattle.std.specs.Cmp.Lexicographic.{slice_cmp};
ghost use Rattle.archive_core.specs.Key.{key_bytes};

use crate::key_answers::KeyAnswers;
use crate::places::AskedKey;
use crate::tables::KeyReply;
use archive_core::{Archive, SliceKey};
use archive_from_records::{Questions, Selects};
use archive_records::key_prefix;
use command_queries::answer_places;
use heap_memory::{Heap, NoMemory};

/// Keys in ascending order.
#[derive(Drop)]
pub(crate) struct AskedKeys<'k> {
    pub(crate) asked: &'k [AskedKey],
    ghost in_order: { IsSortedByKey (λ one. key_bytes one.key) (slice_cmp nat_cmp) asked.now },
}

impl<'k> Selects for AskedKeys<'k> {
    ghost use Rattle.command_frames.specs.InnerPlaces.{is_asked};

    ghost picked = { λ keys bytes. is_asked keys.asked.now bytes };

    fn picks(&self, bytes: &[u8]) -> bool {
        let prefix = &bytes[1..25];
        self.asked
            .binary_search_by(|one| key_prefix(&one.key)[..].cmp(prefix))
            .is_ok()
    }
}

/// Keys that are not answered yet, and the answers for those before them.
#[derive(Drop)]
pub(crate) struct KeyQuestions<'k> {
    heap: Heap,
    /// Whether source frames are wanted.
    lines: bool,
    left: &'k [AskedKey],
    pub(crate) told: Vec<KeyAnswers<'k>, Heap>,
}

impl<'k> KeyQuestions<'k> {
    /// No key is answered yet.
    pub(crate) fn of(heap: &Heap, lines: bool, asked: &'k [AskedKey]) -> KeyQuestions<'k>
        ensures lines { result.lines ≡ lines }
        ensures left { result.left.now ≡ asked.now }
        ensures told { result.told.items ≡ [] }
    {
        KeyQuestions {
            heap: heap.share(),
            lines,
            left: asked,
            told: Vec::new(heap.share()),
        }
    }
}

impl<'k> Questions for KeyQuestions<'k> {
    ghost use Rattle.std.specs.Prelude.{◌≡◌, map};
    ghost use Rattle.command_queries.specs.SourceFrames.{IsAnswerWithFrames};
    ghost use Rattle.command_frames.specs.InnerKeyReplies.{AreToldSoFar};

    ghost left = { λ questions. map (λ one. one.key) questions.left.now };

    ghost answered = { λ start content now. (now.lines ≡ start.lines)
        × AreToldSoFar (λ key. IsAnswerWithFrames content key start.lines) start.left.now now.left.now now.told.items };

    fn next_key(&self) -> Option<SliceKey> {
        Some(self.left.first()?.key)
    }

    fn answer<A: Archive>(&mut self, archive: &A) -> Result<(), NoMemory> {
        let Some((one, left)) = self.left.split_first() else {
            return Ok(());
        };
        let answers = answer_places(&self.heap, archive, &one.key, self.lines, &one.places)?;
        self.told.push(KeyAnswers {
            asked: one,
            told: KeyReply::Told(answers),
        })?;
        self.left = left;
        Ok(())
    }
}
