//! Flies a flight text and prints a line for each tick.

#![tactic(auto)]

use anyhow::anyhow;
use mission::{Failure, fly_lines};
use std::fmt::Formatter;
use std::io::{BufWriter, Read, Stdout, Write};
use std::{env, fmt, fs, io};
use text::{Fault, Misread};

fn main(rt: HostRuntime) -> anyhow::Result<()> {
    match env::args(&rt)?.nth(1) {
        None => fly_text(&rt, &standard_input(&rt)?),
        Some(word) if word.as_str() == "--help" => help(&rt),
        Some(path) => fly_text(&rt, &read_file(&rt, path.as_str())?),
    }
}

fn help(rt: &HostRuntime) -> anyhow::Result<()> {
    println!(rt; "fly [FILE]: flies a flight text, from standard input where no file is named.")?;
    println!(rt;
        "It prints a report for each tick: time, expected, 1 for rest, rejected, missed,"
    )?;
    println!(rt; "how many wait, and parameters 0 and 1; or refused, its number and its place.")?;
    println!(rt; "Lines: read I V, up N COMMAND, frame and twelve numbers, hit C W V, tick.")?;
    println!(rt; "Commands: put A B, later A B C, forget, sleep, wake, rule A B C D E F G H.")?;
    Ok(())
}

// Each program has this: no clause can say what a file gives, so it is no function of a library.
fn read_file(rt: &HostRuntime, path: &str) -> io::Result<Vec<u8>> {
    let text = fs::read(rt, path);
    if let Err(error) = &text {
        eprintln!(rt; "fly: {path}: {error}")?;
    }
    text
}

fn standard_input(rt: &HostRuntime) -> anyhow::Result<Vec<u8>> {
    let mut text = Vec::new(rt.alloc());
    let mut input = rt.stdin();
    input.read_to_end(&mut text)?;
    Ok(text)
}

// Standard output, written many lines at a time.
#[derive(Drop)]
struct Console(BufWriter<Stdout>);

impl fmt::Write for Console {
    fn write_str(&mut self, s: &str) -> fmt::Result {
        self.0.write_all(s.as_bytes()).map_err(|_| fmt::Error)
    }
}

// The whole text is read before anything flies; then each line is told as it is flown.
fn fly_text(rt: &HostRuntime, text: &[u8]) -> anyhow::Result<()> {
    let mut out = Formatter::new(Console(BufWriter::new(rt.alloc(), rt.stdout())?));
    match fly_lines(rt.alloc(), text, &mut out) {
        Ok(()) => {
            let Console(mut written) = out.into_inner();
            match written.flush() {
                Ok(()) => Ok(()),
                Err(_) => unwritten(rt),
            }
        }
        Err(Failure::Unread(fault)) => {
            let misread = Misread {
                program: "fly",
                of: "",
                text,
                fault,
            };
            eprintln!(rt; "{misread}")?;
            // Each program ends with its own words.
            match fault {
                Fault::Unreadable { .. } => Err(anyhow!("the text cannot be read")),
                Fault::Memory => Err(anyhow!("no memory left")),
            }
        }
        Err(Failure::Unwritten) => unwritten(rt),
    }
}

fn unwritten(rt: &HostRuntime) -> anyhow::Result<()> {
    eprintln!(rt; "fly: the reports cannot be written")?;
    Err(anyhow!("the reports cannot be written"))
}
