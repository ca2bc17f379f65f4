//! The text of an index's fault, as it is printed.

use crate::{IndexFault, IndexFaultKind};
use std::fmt::{self, Display};

#[tactic(auto, unfolding(crate::specs::IndexFaultText::kind_text))]
impl fmt::Display for IndexFaultKind {
    ghost use Rattle.std.specs.Prelude.{Some};
    ghost use Rattle.index_format.specs.IndexFaultText.{kind_text};

    ghost output = { λ kind. Some (kind_text kind) };

    fn fmt<W: fmt::Write>(&self, f: &mut fmt::Formatter<W>) -> fmt::Result {
        match self {
            IndexFaultKind::OldIndex => f.write_str("OldIndex"),
            IndexFaultKind::BadMagic => f.write_str("BadMagic"),
            IndexFaultKind::Truncated => f.write_str("Truncated"),
            IndexFaultKind::BadCount => f.write_str("BadCount"),
            IndexFaultKind::BadDigest => f.write_str("BadDigest"),
            IndexFaultKind::BadTag => f.write_str("BadTag"),
            IndexFaultKind::BadKind => f.write_str("BadKind"),
            IndexFaultKind::BadLength => f.write_str("BadLength"),
            IndexFaultKind::NotAscending => f.write_str("NotAscending"),
            IndexFaultKind::BadTable => f.write_str("BadTable"),
            IndexFaultKind::BadPlace => f.write_str("BadPlace"),
            IndexFaultKind::Device => f.write_str("Device"),
            IndexFaultKind::OutOfMemory => f.write_str("OutOfMemory"),
        }
    }
}

#[tactic(auto, unfolding(crate::specs::IndexFaultText::fault_text))]
impl fmt::Display for IndexFault {
    ghost use Rattle.std.specs.Prelude.{Some};
    ghost use Rattle.index_format.specs.IndexFaultText.{fault_text};

    ghost output = { λ fault. Some (fault_text fault) };

    fn fmt<W: fmt::Write>(&self, f: &mut fmt::Formatter<W>) -> fmt::Result {
        let kind = self.kind;
        let offset = self.offset;
        write!(f, "{kind} at {offset}")
    }
}
