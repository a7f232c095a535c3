ghost use Rattle.std.specs.Prelude.{◌≡◌, decimal, option_map};
ghost use Rattle.jr_shelf.specs.Sink.{Puts, PutsBehind};
ghost use Rattle.jr_words.specs.Words.{texts_of};
ghost use Rattle.jr_top.specs.Messages.{line_of, message_line, message_text, status_text};
ghost use Rattle.jr_top.specs.Messages.{word_at as text_at};

use crate::statuses::Status;
use jr_shelf::{Failed, Sink};

/// What is reported of a status on standard error.
#[derive(Clone, Copy, Debug)]
pub enum Message<'a> {
    Usage,
    /// The file can't be read.
    ReadFault { file: &'a str },
    /// Writing failed after so many files.
    WriteFault { stored: u32 },
    /// What the file holds is no script.
    BadScript,
    /// What the file holds is no source.
    BadSource { file: &'a str },
    NoMemory,
}

impl<'a> Message<'a> {
    /// What is reported of the status of a run with these words. `Done` and `Refused` have their
    /// output alone.
    pub fn of(status: &Status, words: &'a [String]) -> Option<Message<'a>>
        ensures { option_map message_text result ≡ status_text (texts_of words.now) status.now }
    {
        match status {
            Status::Done | Status::Refused => None,
            Status::Usage => Some(Message::Usage),
            Status::ReadFault { word } => Some(Message::ReadFault {
                file: word_at(words, *word),
            }),
            Status::WriteFault { stored } => Some(Message::WriteFault { stored: *stored }),
            Status::BadScript(_) => Some(Message::BadScript),
            Status::BadSource { word, .. } => Some(Message::BadSource {
                file: word_at(words, *word),
            }),
            Status::NoMemory => Some(Message::NoMemory),
        }
    }

    /// Gives the sink the message and a line end. It takes no memory.
    pub fn put<E: Sink>(&self, errors: &mut E) -> Result<(), Failed>
        ensures { Puts result (E.taken errors.old) (E.taken errors.new)
            (E.faults errors.old) (E.faults errors.new) (message_line self.now) }
    {
        match self {
            Message::Usage => put_line(errors, b"jref: usage", ""),
            Message::ReadFault { file } => put_line(errors, b"jref: cannot read ", file),
            Message::WriteFault { stored } => {
                let front = put_bytes(errors, b"jref: write fault after ");
                let count = put_number(front, errors, *stored);
                put_behind(count, errors, b" files\n")
            }
            Message::BadScript => put_line(errors, b"jref: bad script", ""),
            Message::BadSource { file } => put_line(errors, b"jref: bad source ", file),
            Message::NoMemory => put_line(errors, b"jref: no memory", ""),
        }
    }
}

// The word of this number, empty where there is none.
fn word_at(words: &[String], word: u32) -> &str
    ensures { result.now ≡ text_at (texts_of words.now) word }
{
    match words.get(word as usize) {
        Some(found) => found.as_str(),
        None => "",
    }
}

// Gives the sink the bytes, the text and a line end.
fn put_line<E: Sink>(errors: &mut E, front: &[u8], back: &str) -> Result<(), Failed>
    ensures { Puts result (E.taken errors.old) (E.taken errors.new)
        (E.faults errors.old) (E.faults errors.new) (line_of front.now back.now) }
{
    let front = put_bytes(errors, front);
    let both = put_behind(front, errors, back.as_bytes());
    put_behind(both, errors, b"\n")
}

fn put_bytes<E: Sink>(errors: &mut E, bytes: &[u8]) -> Result<(), Failed>
    ensures { Puts result (E.taken errors.old) (E.taken errors.new)
        (E.faults errors.old) (E.faults errors.new) bytes.now }
{
    errors.put(bytes)
}

// Gives the sink the bytes behind others, where those were put.
fn put_behind<E: Sink>(
    first: Result<(), Failed>,
    errors: &mut E,
    bytes: &[u8],
) -> Result<(), Failed>
    ensures { PutsBehind first result (E.taken errors.old) (E.taken errors.new)
        (E.faults errors.old) (E.faults errors.new) bytes.now }
{
    match first {
        Ok(()) => put_bytes(errors, bytes),
        Err(fault) => Err(fault),
    }
}

// Gives the sink the decimal digits of the number behind other bytes, where those were put.
fn put_number<E: Sink>(first: Result<(), Failed>, errors: &mut E, number: u32) -> Result<(), Failed>
    ensures { PutsBehind first result (E.taken errors.old) (E.taken errors.new)
        (E.faults errors.old) (E.faults errors.new) (decimal number) }
{
    let digit = b'0' + (number % 10) as u8;
    if number < 10 {
        return put_behind(first, errors, &[digit]);
    }
    let front = put_number(first, errors, number / 10);
    put_behind(front, errors, &[digit])
}
