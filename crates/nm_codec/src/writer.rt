//! Writing bytes from left to right: `nm_record` makes commits for the disk so, `nm_state` rows of messages.

ghost use Rattle.std.specs.Prelude.{◌≡◌, ◌<◌, ◌^◌, ◌++◌, [], length, OnOk, OnErr};
ghost use Rattle.nm_codec.specs.Encoding.{i64_bytes, text_bytes, u8_bytes, u32_bytes, u64_bytes};

use nm_base::{Many, NoMemory, Text};
use std::alloc::Global;
use std::marker::Model;

/// Bytes that are written from left to right, seen as those so far. Where memory runs out they stay as they were.
#[derive(Drop)]
pub struct Writer {
    bytes: Vec<u8>,
}

impl Model for Writer {
    ghost use Rattle.std.specs.Prelude.{ℕ, List};

    ghost Value = { List ℕ };

    ghost view = { λ w. w.bytes.items };
}

impl Writer {
    pub fn new(alloc: Global) -> Writer
        ensures { result ≡ [] }
    {
        Writer {
            bytes: Vec::new(alloc),
        }
    }

    /// The allocator that the bytes come from.
    pub fn alloc(&self) -> Global {
        *self.bytes.allocator()
    }

    pub fn put_u8(&mut self, v: u8) -> Result<(), NoMemory>
        ensures ok { OnOk result (self.new ≡ self.old ++ u8_bytes v) }
        ensures err { OnErr result (self.new ≡ self.old) }
    {
        Ok(self.bytes.extend_from_slice(&v.to_be_bytes())?)
    }

    pub fn put_u32(&mut self, v: u32) -> Result<(), NoMemory>
        ensures ok { OnOk result (self.new ≡ self.old ++ u32_bytes v) }
        ensures err { OnErr result (self.new ≡ self.old) }
    {
        Ok(self.bytes.extend_from_slice(&v.to_be_bytes())?)
    }

    pub fn put_u64(&mut self, v: u64) -> Result<(), NoMemory>
        ensures ok { OnOk result (self.new ≡ self.old ++ u64_bytes v) }
        ensures err { OnErr result (self.new ≡ self.old) }
    {
        Ok(self.bytes.extend_from_slice(&v.to_be_bytes())?)
    }

    /// As two's complement.
    pub fn put_i64(&mut self, v: i64) -> Result<(), NoMemory>
        ensures ok { OnOk result (self.new ≡ self.old ++ i64_bytes v) }
        ensures err { OnErr result (self.new ≡ self.old) }
    {
        Ok(self.bytes.extend_from_slice(&v.to_be_bytes())?)
    }

    /// The length of the text, and its bytes.
    pub fn put_text(&mut self, text: &Text) -> Result<(), NoMemory>
        requires { length text.now < 2 ^ 32 }
        ensures ok { OnOk result (self.new ≡ self.old ++ text_bytes text.now) }
        ensures err { OnErr result (self.new ≡ self.old) }
    {
        self.put_text_bytes(text.as_bytes())?;
        Ok(())
    }

    /// The same of a text that is given by its bytes.
    pub fn put_text_bytes(&mut self, bytes: &[u8]) -> Result<(), NoMemory>
        requires { length bytes.now < 2 ^ 32 }
        ensures ok { OnOk result (self.new ≡ self.old ++ text_bytes bytes.now) }
        ensures err { OnErr result (self.new ≡ self.old) }
    {
        let before = self.bytes.len();
        self.put_u32(bytes.len() as u32)?;
        if self.bytes.extend_from_slice(bytes).is_err() {
            self.bytes.truncate(before);
            return Err(NoMemory);
        }
        Ok(())
    }

    pub fn finish(self) -> Many<u8>
        ensures { result ≡ self }
    {
        Many::from_vec(self.bytes)
    }
}
