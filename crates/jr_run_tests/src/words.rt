//! What words mean.
use crate::memory::{put, words_of};
use crate::rows::assert_same;
use jr_words::{Command, Operand, WordsFault, read_words};
use std::alloc::Global;
use std::process::Abort;

/// Words, and what they mean: operands with the numbers of their words.
pub(crate) const ROWS: &'static str = "
~words rename A.java 0 b => rename A.java 0 b
~words rename A.java 0041 b => rename A.java 41 b
~words rename A.java 4294967295 b => rename A.java 4294967295 b
~words run s.json => run 1=s.json
~words run s.json A.java B.java => run 1=s.json 2=A.java 3=B.java
~words run s.json s.json => run 1=s.json 2=s.json
~words run --out d s.json A.java => run 3=s.json 4=A.java to d
~words run s.json --out d A.java => run 1=s.json 4=A.java to d
~words run s.json A.java --out d => run 1=s.json 2=A.java to d
~words run s.json A.java --out A.java B.java => run 1=s.json 2=A.java 5=B.java to A.java
~words run run run => run 1=run 2=run
~words run --out run rename 4 => run 3=rename 4=4 to run
~words  => usage
~words rename => usage
~words rename A.java 41 => usage
~words rename A.java 41 b c => usage
~words undo A.java 41 b => usage
~words Rename A.java 41 b => usage
~words generate A.java 41 b => usage
~words  A.java 41 b => usage
~words rename  41 b => usage
~words rename A.java  b => usage
~words rename A.java 41  => usage
~words -rename A.java 41 b => usage
~words rename -A.java 41 b => usage
~words rename A.java -41 b => usage
~words rename A.java 41 -b => usage
~words rename --out 41 b => usage
~words rename --out A.java 41 b => usage
~words rename A.java 41 b --out d => usage
~words rename A.java x b => usage
~words rename A.java 4x b => usage
~words rename A.java +41 b => usage
~words rename A.java 0x29 b => usage
~words rename A.java 4_1 b => usage
~words rename A.java ४१ b => usage
~words rename A.java 4294967296 b => usage
~words rename A.java 99999999999999999999 b => usage
~words run => usage
~words run --out => usage
~words run --out d => usage
~words run --out --out s.json => usage
~words run --out d --out e s.json => usage
~words run --out d s.json --out d => usage
~words run s.json --out => usage
~words run s.json A.java --out => usage
~words run s.json -x => usage
~words run s.json -- => usage
~words run -- s.json => usage
~words run s.json --outs d => usage
~words run s.json --out=d => usage
~words run --ou d s.json => usage
~words run --help => usage
~words run -h s.json => usage
~words run s.json A.java A.java => usage
~words run s.json A.java B.java A.java => usage
~words run s.json  => usage
~words --out d run s.json => usage
";

fn put_operand(rt: &impl Abort, text: &mut String, operand: &Operand) {
    let (word, named) = (operand.word, operand.text);
    write!(text, " {word}={named}").expect(rt, "memory");
}

fn run_text(
    rt: &impl Abort,
    alloc: Global,
    out: Option<&str>,
    script: &Operand,
    files: &[Operand],
) -> String {
    let mut text = String::from_str(alloc, "run").expect(rt, "memory");
    put_operand(rt, &mut text, script);
    for file in files {
        put_operand(rt, &mut text, file);
    }
    if let Some(dir) = out {
        put(rt, &mut text, " to ");
        put(rt, &mut text, dir);
    }
    text
}

/// What the words mean, as a text.
fn tell_words(rt: &impl Abort, alloc: Global, words: &[String]) -> String {
    match read_words(alloc, words) {
        Err(WordsFault::Usage) => String::from_str(alloc, "usage").expect(rt, "memory"),
        Err(WordsFault::Memory) => String::from_str(alloc, "memory").expect(rt, "memory"),
        Ok(Command::Rename { file, at, name }) => {
            format!(in alloc; "rename {file} {at} {name}").expect(rt, "memory")
        }
        Ok(Command::Run { out, script, files }) => run_text(rt, alloc, out, &script, &files),
    }
}

pub(crate) fn meaning(rt: &impl Abort, alloc: Global, line: &str) -> String {
    let words = words_of(rt, alloc, line);
    tell_words(rt, alloc, words.as_slice())
}

/// As many words as there may be, and one more.
fn assert_most(rt: &impl Abort, alloc: Global) {
    let mut words = words_of(rt, alloc, "run s.json");
    for number in 2..65_536 {
        let word = format!(in alloc; "{number}").expect(rt, "memory");
        words.push(word).expect(rt, "memory");
    }
    assert!(rt; read_words(alloc, words.as_slice()).is_ok());
    let last = String::from_str(alloc, "b").expect(rt, "memory");
    words.push(last).expect(rt, "memory");
    assert!(rt; read_words(alloc, words.as_slice()).is_err());
}

#[test]
fn no_words_and_most_words(rt: HostRuntime) {
    assert_same(&rt, tell_words(&rt, rt.alloc(), &[]).as_str(), "usage");
    assert_most(&rt, rt.alloc());
}
