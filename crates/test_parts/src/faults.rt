//! Why a case cannot be carried out, and why a call below the commands is refused.

use archive_core::{AdmitFault, SliceFault};
use archive_exchange::{DeliverFault, ReplyFault};
use archive_image_admission::TakeFault;
use archive_records::{RecordFault, RecordFaultKind};
use fat_slices::FatFault;
use heap_memory::NoMemory;
use hex::FromHexError;
use macho_image::ImageFault;
use macho_symbols::SymbolFault;
use std::io;
use std::num::ParseIntError;
use thiserror::Error;

/// Why a case cannot be carried out.
#[derive(Debug, Drop, Error)]
pub enum CaseFault {
    /// Its line has another form, or names bytes that do not exist.
    #[error("BadLine")]
    BadLine,
    /// A word of its line is not a number.
    #[error("BadLine")]
    BadNumber(#[from] ParseIntError),
    /// A word of its line is not hex bytes.
    #[error("BadLine")]
    BadHex(#[from] FromHexError),
    /// The system refused a call on files.
    #[error("System")]
    System(#[from] io::Error),
    /// Memory ran out.
    #[error("OutOfMemory")]
    OutOfMemory(#[from(alloc)] NoMemory),
}

/// Why a call below the commands is refused.
#[derive(Clone, Copy, Debug, PartialEq, Eq, Error)]
pub enum CallFault {
    /// The bytes are not a universal file.
    #[error("{0:?}")]
    Fat(#[from] FatFault),
    /// The bytes are not an image.
    #[error("Image({0:?})")]
    Image(#[from] ImageFault),
    /// The symbols of an image cannot be read.
    #[error("Symbols({0:?})")]
    Symbols(#[from] SymbolFault),
    /// The bytes are not a slice.
    #[error("{0:?}")]
    Slice(#[from] SliceFault),
    /// The bytes are not the text of an archive, of operations or of a summary, or their reader failed.
    #[error("{:?} at {}", .0.kind, .0.offset)]
    Record(RecordFault),
    /// The bytes are not a file whose slices are admitted.
    #[error("{0:?}")]
    Take(TakeFault),
    /// No call has its verb.
    #[error("BadLine")]
    NoSuchCall,
    /// A growth was refused.
    #[error("OutOfMemory")]
    OutOfMemory(#[from] NoMemory),
}

/// The result of a call below the commands.
pub type Ended = Result<(), CallFault>;

impl From<AdmitFault> for CallFault {
    fn from(refused: AdmitFault) -> CallFault {
        match refused {
            AdmitFault::Slice(fault) => CallFault::Slice(fault),
            AdmitFault::OutOfMemory => CallFault::OutOfMemory(NoMemory),
        }
    }
}

impl From<RecordFault> for CallFault {
    fn from(refused: RecordFault) -> CallFault {
        match refused.kind {
            RecordFaultKind::OutOfMemory => CallFault::OutOfMemory(NoMemory),
            _ => CallFault::Record(refused),
        }
    }
}

impl From<TakeFault> for CallFault {
    fn from(refused: TakeFault) -> CallFault {
        match refused {
            TakeFault::OutOfMemory => CallFault::OutOfMemory(NoMemory),
            _ => CallFault::Take(refused),
        }
    }
}

impl From<ReplyFault> for CallFault {
    fn from(refused: ReplyFault) -> CallFault {
        match refused {
            ReplyFault::NotASummary(fault) => CallFault::Record(fault),
            ReplyFault::OutOfMemory => CallFault::OutOfMemory(NoMemory),
        }
    }
}

impl From<DeliverFault> for CallFault {
    fn from(refused: DeliverFault) -> CallFault {
        match refused {
            DeliverFault::Refused(fault) => CallFault::Record(fault),
            DeliverFault::OutOfMemory => CallFault::OutOfMemory(NoMemory),
        }
    }
}
