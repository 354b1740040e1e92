ghost use Rattle.std.specs.Prelude.{◌≡◌, ◌++◌, string_bytes, OnOk};
ghost use Rattle.lang_lexer.specs.declared.token.Token.{Token};
ghost use Rattle.lang_lexer.specs.declared.token.Token.TheVariants as token;
ghost use Rattle.lang_print.specs.Canonical as spec;
ghost use Rattle.lang_print.specs.Lines as line;
ghost use Rattle.lang_print.specs.Lines.{put, put_all};
ghost use Rattle.lang_print.specs.Tokens.{sign_if};

use item_types::{Memory, push_quoted};
use lang_lexer::Mark;
use std::alloc::Global;
use std::marker::Model;

/// A text that grows by tokens.
#[derive(Drop)]
pub(crate) struct Printer {
    text: String,
    /// Whether no space stands behind what is written.
    tight: bool,
}

impl Model for Printer {
    ghost use Rattle.lang_print.specs.Lines.{Line, line_of};

    ghost Value = { Line };

    ghost view = { line_of };
}

impl Printer {
    pub fn new(alloc: Global) -> Printer
        ensures { result ≡ line.blank }
    {
        Printer {
            text: String::new(alloc),
            tight: true,
        }
    }

    pub fn into_text(self) -> String
        ensures { string_bytes result ≡ self.text }
    {
        let Printer { text, tight: _ } = self;
        text
    }

    /// The space before a token, of which the truth value says whether none stands before it.
    fn gap(&mut self, hugs: bool) -> Result<(), Memory>
        ensures { OnOk result (self.new ≡ line.spaced hugs self.old) }
    {
        if !self.tight && !hugs {
            self.text.push_str(" ")?;
        }
        Ok(())
    }

    pub fn sign(&mut self, mark: Mark) -> Result<(), Memory>
        ensures { OnOk result (self.new ≡ put (token.Sign mark) self.old) }
    {
        self.gap(hugs_left(mark))?;
        self.text.push_str(mark.written())?;
        self.tight = hugs_right(mark);
        Ok(())
    }

    /// The sign where it is wanted.
    pub fn sign_if(&mut self, wanted: bool, mark: Mark) -> Result<(), Memory>
        ensures { OnOk result (self.new ≡ put_all (sign_if wanted mark) self.old) }
    {
        if wanted {
            self.sign(mark)?;
        }
        Ok(())
    }

    pub fn name(&mut self, name: &str) -> Result<(), Memory>
        ensures { OnOk result (self.new ≡ put (token.Name name.now) self.old) }
    {
        self.gap(false)?;
        self.text.push_str(name)?;
        self.tight = false;
        Ok(())
    }

    pub fn number(&mut self, value: i64) -> Result<(), Memory>
        ensures { OnOk result (self.new ≡ put (token.Number value) self.old) }
    {
        self.gap(false)?;
        write!(self.text, "{value}")?;
        self.tight = false;
        Ok(())
    }

    pub fn quoted(&mut self, text: &str) -> Result<(), Memory>
        ensures { OnOk result (self.new ≡ put (token.Str text.now) self.old) }
    {
        self.gap(false)?;
        push_quoted(text, &mut self.text)?;
        self.tight = false;
        Ok(())
    }
}

fn hugs_left(mark: Mark) -> bool
    ensures { result ≡ spec.mark_hugs_left mark }
{
    matches!(
        mark,
        Mark::Semi
            | Mark::Comma
            | Mark::Close
            | Mark::CloseList
            | Mark::Dot
            | Mark::Colon
            | Mark::Open
    )
}

fn hugs_right(mark: Mark) -> bool
    ensures { result ≡ spec.mark_hugs_right mark }
{
    matches!(mark, Mark::Open | Mark::OpenList | Mark::Dot | Mark::Bang)
}
