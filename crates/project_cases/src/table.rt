use crate::answer::answer_of;
use item_types::Memory;
use std::alloc::Global;

/// A table of project files and their answers, as its lines come.
#[derive(Drop)]
pub struct Table {
    /// What each file begins with.
    head: String,
    /// The lines of a file, or of the next head, so far.
    lines: String,
    files: u32,
}

impl Table {
    pub fn new(alloc: Global) -> Table {
        Table {
            head: String::new(alloc),
            lines: String::new(alloc),
            files: 0,
        }
    }

    /// How many files the table had so far.
    pub fn files(&self) -> u32 {
        self.files
    }

    /// Takes the table's next line, and says what differs where it ends a file that is answered
    /// in another way.
    pub fn take(&mut self, alloc: Global, line: &str) -> Result<Option<String>, Memory> {
        if line == "-->" {
            self.head.clear();
            self.head.push_str(self.lines.as_str())?;
            self.lines.clear();
            return Ok(None);
        }
        match line.strip_prefix("--> ") {
            Some(wanted) => self.compare(alloc, wanted),
            None => {
                self.lines.push_str(line)?;
                self.lines.push_str("\n")?;
                Ok(None)
            }
        }
    }

    /// What differs where the file of the lines so far isn't answered as wanted.
    fn compare(&mut self, alloc: Global, wanted: &str) -> Result<Option<String>, Memory> {
        self.files = self.files.saturating_add(1);
        let mut file = String::from_str(alloc, self.head.as_str())?;
        file.push_str(self.lines.as_str())?;
        let answer = answer_of(alloc, file.as_str(), wanted == "ok")?;
        if answer.as_str() == wanted {
            self.lines.clear();
            return Ok(None);
        }
        let mut difference = String::from_str(alloc, self.lines.as_str())?;
        difference.push_str("is answered: ")?;
        difference.push_str(answer.as_str())?;
        self.lines.clear();
        Ok(Some(difference))
    }
}
