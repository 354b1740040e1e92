ghost use Rattle.std.specs.Prelude.{◌≡◌, ◌<◌, ◌+◌, ◌^◌, length, IfOk};
ghost use Rattle.std.specs.Int.{w8, w16, w32};
ghost use Rattle.class_pool.specs.declared.fault.ClassFault.TheVariants as fault;
ghost use Rattle.class_grammar.specs.Layout.{Reads, ReadsBy, place, read_number, read_run};

use class_pool::ClassFault;
use std::marker::Model;

/// What is left of the bytes, and where it begins. Contracts see it as that place.
#[derive(Drop)]
pub struct Cursor<'a> {
    rest: &'a [u8],
    at: u32,
}

impl<'a> Model for Cursor<'a> {
    ghost use Rattle.class_grammar.specs.Layout.{Place};

    ghost Value = { Place };

    ghost use Rattle.class_reader.specs.Cursor.{place_of, IsSmall};

    ghost view = { place_of };

    ghost invariant = { IsSmall };
}

impl<'a> Cursor<'a> {
    /// The beginning of the bytes.
    pub fn new(bytes: &'a [u8]) -> Cursor<'a>
        requires { length bytes.now < 2 ^ 32 }
        ensures { result ≡ place 0 bytes.now }
    {
        Cursor { rest: bytes, at: 0 }
    }

    /// The offset of the next byte.
    pub fn at(&self) -> u32
        ensures { result ≡ self.now.at }
    {
        self.at
    }

    /// How many bytes are left.
    pub fn left(&self) -> usize
        ensures { result ≡ length self.now.rest }
    {
        self.rest.len()
    }

    /// What comes next isn't whole.
    fn short(&self) -> ClassFault
        ensures { result ≡ fault.Short self.now.at }
    {
        ClassFault::Short { at: self.at }
    }

    /// The next number of one byte, high byte first.
    ///
    /// # Errors
    /// `Short` here exactly where it isn't whole.
    #[tactic(auto, unfolding(class_grammar::specs::Layout::read_number))]
    pub fn u1(&mut self) -> Result<u8, ClassFault>
        ensures { Reads (read_number w8 self.old) result self.new }
    {
        if self.rest.len() < 1 {
            return Err(self.short());
        }
        let (front, rest) = self.rest.split_at(1);
        let number = u8::from_be_bytes([front[0]]);
        self.rest = rest;
        self.at += 1;
        Ok(number)
    }

    /// The next number of two bytes, high byte first.
    ///
    /// # Errors
    /// `Short` here exactly where it isn't whole.
    #[tactic(auto, unfolding(class_grammar::specs::Layout::read_number))]
    pub fn u2(&mut self) -> Result<u16, ClassFault>
        ensures { Reads (read_number w16 self.old) result self.new }
    {
        if self.rest.len() < 2 {
            return Err(self.short());
        }
        let (front, rest) = self.rest.split_at(2);
        let number = u16::from_be_bytes([front[0], front[1]]);
        self.rest = rest;
        self.at += 2;
        Ok(number)
    }

    /// The next number of four bytes, high byte first.
    ///
    /// # Errors
    /// `Short` here exactly where it isn't whole.
    #[tactic(auto, unfolding(class_grammar::specs::Layout::read_number))]
    pub fn u4(&mut self) -> Result<u32, ClassFault>
        ensures { Reads (read_number w32 self.old) result self.new }
    {
        if self.rest.len() < 4 {
            return Err(self.short());
        }
        let (front, rest) = self.rest.split_at(4);
        let number = u32::from_be_bytes([front[0], front[1], front[2], front[3]]);
        self.rest = rest;
        self.at += 4;
        Ok(number)
    }

    /// The next run of so many bytes.
    ///
    /// # Errors
    /// `Short` here exactly where it isn't whole.
    #[tactic(auto, unfolding(class_grammar::specs::Layout::read_run))]
    pub fn run(&mut self, len: u32) -> Result<&'a [u8], ClassFault>
        ensures reads { ReadsBy (λ x. x.now) (read_run len self.old) result self.new }
        ensures len { IfOk result (λ x. length x.now ≡ len) }
    {
        let len = len as usize;
        if self.rest.len() < len {
            return Err(self.short());
        }
        let (front, rest) = self.rest.split_at(len);
        self.rest = rest;
        self.at += len as u32;
        Ok(front)
    }
}
