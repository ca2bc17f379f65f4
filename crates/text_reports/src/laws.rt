//! Laws about the lines of `find` and of `list`.
ghost use Rattle.std.specs.Prelude.{◌≡◌, ℕ, List, All};
ghost use Rattle.std.specs.List.{flat_map};
ghost use Rattle.archive_core.specs.Content.{Operations};
ghost use Rattle.archive_core.specs.Find.{IsFinds, answering_count};
ghost use Rattle.archive_core.specs.Lists.{IsList, rows_under};
ghost use Rattle.archive_core.specs.declared.find.FindRow.{FindRow};
ghost use Rattle.text_reports.specs.Finds.{groups};

/// The groups of rows are a partition of the rows, in their order.
pub fn groups_are_rows()
    ensures { (rows : List FindRow) → flat_map (λ group. group.rows) (groups rows) ≡ rows }
{}

/// In the result of a search, the number of slices that answer is the same by each group as by all rows with its
/// architecture, so a conflict has the number of those that answer for the UUID and the architecture.
pub fn conflicts_count_answering()
    ensures { (o : Operations) (uuid : List ℕ) (rows : List FindRow)
        → IsFinds o uuid rows
        → All (λ group. answering_count group.rows group.key.arch ≡ answering_count rows group.key.arch) (groups rows) }
{}

/// In a list, the number of slices that answer is the same by each group as by the rows of its UUID with its
/// architecture, and these rows are the result of a search for the UUID
/// (`laws_archive::content_laws::finds_are_parts`).
pub fn list_conflicts_count_answering()
    ensures { (o : Operations) (rows : List FindRow)
        → IsList o rows
        → All (λ group. answering_count group.rows group.key.arch
        ≡ answering_count (rows_under group.key.uuid rows) group.key.arch) (groups rows) }
{}
