use crate::meaning::meaning;
use answer::{Answer, Numbered};
use filing::file_line;
use std::fs::File;
use std::io;
use std::io::{Stdout, Write};

/// As much text as is held back before it is printed.
const FULL: usize = 65536;

/// A docket's file, and the entries that are not in it yet.
#[derive(Drop)]
struct Docket {
    file: File,
    entries: Vec<u8>,
}

impl Docket {
    /// A docket in a new file of that name.
    fn create(rt: &HostRuntime, name: &str) -> io::Result<Docket> {
        Ok(Docket {
            file: File::create_new(rt, name)?,
            entries: Vec::new(rt.alloc()),
        })
    }
}

/// Where answers and docket entries go. Entries are in the file before their answers are printed.
#[derive(Drop)]
pub struct Output {
    out: Stdout,
    docket: Option<Docket>,
    answers: String,
    /// Whether each refusal gets what it means.
    explain: bool,
}

impl Output {
    /// The output of a run, with a new docket file if one is named.
    pub fn open(rt: &HostRuntime, docket: Option<String>, explain: bool) -> anyhow::Result<Output> {
        let docket = docket.map(|name| Docket::create(rt, name.as_str()));
        Ok(Output {
            out: rt.stdout(),
            docket: docket.transpose()?,
            answers: String::new(rt.alloc()),
            explain,
        })
    }

    /// Takes in the answer to a line, and what the line leaves in the docket.
    pub fn note(&mut self, number: u64, line: &[u8], answer: Answer) -> anyhow::Result<()> {
        if let Some(docket) = &mut self.docket {
            let filed = file_line(line, answer);
            docket.entries.extend_from_slice(filed.as_slice())?;
        }
        let numbered = Numbered {
            line: number,
            answer,
        };
        self.answers.push_str(numbered.text().as_str())?;
        if self.explain
            && let Answer::Refused(refusal) = answer
        {
            self.answers.push(' ')?;
            self.answers.push_str(meaning(refusal))?;
        }
        self.answers.push('\n')?;
        if self.answers.len() >= FULL {
            self.flush()?;
        }
        Ok(())
    }

    /// Writes the entries to the docket, and then prints the answers.
    pub fn flush(&mut self) -> io::Result<()> {
        if let Some(docket) = &mut self.docket {
            docket.file.write_all(docket.entries.as_slice())?;
            docket.entries.clear();
        }
        self.out.write_all(self.answers.as_bytes())?;
        self.answers.clear();
        Ok(())
    }
}
