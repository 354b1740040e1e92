ghost use Rattle.std.specs.Prelude.{◌≡◌, ◌<◌, ◌+◌, ◌^◌, length};
ghost use Rattle.std.specs.Option.{option_copied};
ghost use Rattle.lang_grammar.specs.Place as spec;
ghost use Rattle.lang_grammar.specs.Place.{Gives};
ghost use Rattle.lang_grammar.specs.Rules as rules;

use lang_grammar::{Fault, ParseError};
use lang_lexer::{Mark, Token};
use std::marker::Model;

/// A place among the tokens.
#[derive(Drop)]
pub(crate) struct Cursor<'a> {
    rest: &'a [Token],
    at: u32,
}

impl<'a> Model for Cursor<'a> {
    ghost use Rattle.lang_grammar.specs.Place.{Place};

    ghost Value = { Place };

    ghost use Rattle.lang_reader.specs.Cursor.{place_of, IsSmall};

    ghost view = { place_of };

    ghost invariant = { IsSmall };
}

impl<'a> Cursor<'a> {
    pub fn new(tokens: &'a [Token]) -> Cursor<'a>
        requires { length tokens.now < 2 ^ 32 }
        ensures { result ≡ spec.place 0 tokens.now }
    {
        Cursor {
            rest: tokens,
            at: 0,
        }
    }

    pub fn at(&self) -> u32
        ensures { result ≡ self.now.at }
    {
        self.at
    }

    /// The next token.
    pub fn peek(&self) -> Option<&'a Token>
        ensures { option_copied result ≡ spec.first self.now }
    {
        self.rest.first()
    }

    pub fn step(&mut self)
        ensures { self.new ≡ spec.next self.old }
    {
        match self.rest {
            [] => {}
            [_, rest @ ..] => {
                self.rest = rest;
                self.at += 1;
            }
        }
    }

    pub fn sees(&self, mark: Mark) -> bool
        ensures { result ≡ spec.sees mark self.now }
    {
        match self.peek() {
            Some(Token::Sign(found)) => found.same(mark),
            _ => false,
        }
    }

    /// Why the next token may not stand here, with so many more allowed to be open.
    #[tactic(auto, unfolding(lang_grammar::specs::Place::refusal))]
    pub fn refuse(&self, left: usize) -> Fault
        ensures { result ≡ spec.refusal left self.now }
    {
        if left == 0 && self.opens() {
            Fault::TooDeep { at: self.at }
        } else {
            Fault::Syntax { at: self.at }
        }
    }

    fn opens(&self) -> bool
        ensures { result ≡ spec.opens self.now }
    {
        self.sees(Mark::Open)
            || self.sees(Mark::OpenList)
            || self.sees(Mark::OpenBlock)
            || self.sees(Mark::Bang)
            || self.sees(Mark::Len)
    }

    /// Passes the mark, and gives its number.
    #[tactic(auto, unfolding(lang_grammar::specs::Rules::sign))]
    pub fn sign(&mut self, left: usize, mark: Mark) -> Result<u32, ParseError>
        ensures { Gives (rules.sign left mark self.old) result self.new }
    {
        let at = self.at;
        if self.sees(mark) {
            self.step();
            Ok(at)
        } else {
            Err(ParseError::Fault(self.refuse(left)))
        }
    }

    /// One more than the tokens that are left.
    pub fn turns(&self) -> usize
        ensures { result ≡ length self.now.rest + 1 }
    {
        self.rest.len() + 1
    }
}
