//! A text as it is read, with the place that the reader has come to.
ghost use Rattle.std.specs.Prelude.{◌≡◌, ◌+◌, ◌<◌, ◌≤◌, length};
ghost use Rattle.prints.specs.Places.{line_at, column_at};

mod fields;
mod whole;

use amounts::Amount;
use std::marker::PhantomData;

/// The reader of a run whose amounts are of the kind `K`.
#[derive(Drop)]
pub struct Reader<'a, K: Amount> {
    bytes: &'a [u8],
    pos: usize,
    line: usize,
    column: usize,
    kind: PhantomData<K>,
    ghost narrow: { K.Amount.width ≤ 64 },
    ghost short: { length bytes.now ≤ 65536 },
    ghost within: { pos ≤ length bytes.now },
    ghost lined: { line ≡ line_at bytes.now pos },
    ghost columned: { column ≡ column_at bytes.now pos },
}

impl<'a, K: Amount> Reader<'a, K> {
    /// At the beginning.
    pub(crate) fn new(bytes: &'a [u8]) -> Self
        requires narrow { K.Amount.width ≤ 64 }
        requires short { length bytes.now ≤ 65536 }
        ensures { (result.pos ≡ 0) × (result.bytes.now ≡ bytes.now) }
    {
        Reader {
            bytes,
            pos: 0,
            line: 1,
            column: 1,
            kind: PhantomData,
        }
    }

    /// Over the byte that comes next.
    fn step(&mut self)
        requires { self.old.pos < length self.old.bytes.now }
        ensures { (self.new.pos ≡ self.old.pos + 1) × (self.new.bytes ≡ self.old.bytes) }
    {
        let passed = self.bytes[self.pos];
        self.pos += 1;
        if passed == b'\n' {
            self.line += 1;
            self.column = 1;
        } else {
            self.column += 1;
        }
    }
}
