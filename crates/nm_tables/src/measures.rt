//! What the keys and values of each `MeasuredMap` of a snapshot take in an index as data.

ghost use Rattle.std.specs.Prelude.{length, refl};
ghost use Rattle.nm_record.specs.Commits.{arrival_grammar};
ghost use Rattle.nm_tables.specs.Measures.{bytes_alike};

use crate::measured_map::{Measured, MeasuredKey};
use crate::row_bytes::RowBytes;
use nm_base::{Facts, LinkRow, MailPath};
use nm_record::file_len;
use nm_shared::Shared;

/// A place is no part of the data.
impl MeasuredKey for u64 {
    ghost key_measure = { λ _. 0 };

    fn key_len(&self) -> u64 {
        0
    }

    ghost alike = { λ a b same. refl };
}

impl MeasuredKey for RowBytes {
    ghost key_measure = { λ bytes. length bytes };

    fn key_len(&self) -> u64 {
        self.as_slice().len() as u64
    }

    ghost alike = { bytes_alike };
}

impl Measured for (MailPath, Shared<Facts>) {
    ghost measure = { λ file. length (arrival_grammar.bytes (file.0, file.1)) };

    fn value_len(&self) -> u64 {
        file_len(&self.0, self.1.get())
    }
}

/// The bytes of a row are its key.
impl Measured for Shared<LinkRow> {
    ghost measure = { λ _. 0 };

    fn value_len(&self) -> u64 {
        0
    }
}
