//! The ground: reads reports, and names the frame to send for each.

#![tactic(auto)]

use anyhow::anyhow;
use station::Station;
use std::{env, fs, io};
use telemetry::Report;
use text::{Event, Fault, Misread, parse_commands, parse_report};

fn main(rt: HostRuntime) -> anyhow::Result<()> {
    match env::args(&rt)?.nth(1) {
        None => {
            eprintln!(rt; "ground: name a file of commands; ground --help says more")?;
            Err(anyhow!("no file of commands"))
        }
        Some(word) if word.as_str() == "--help" => help(&rt),
        Some(path) => {
            let text = read_file(&rt, path.as_str())?;
            hear_all(&rt, station_of(&rt, &text)?)
        }
    }
}

fn help(rt: &HostRuntime) -> anyhow::Result<()> {
    println!(rt;
        "ground COMMANDS: reads reports from standard input, eight numbers to a line, and prints"
    )?;
    println!(rt;
        "for each the frame to send next, or none if every command of the file is obeyed."
    )?;
    println!(rt;
        "COMMANDS is a file with a command to a line, numbered from 0: put A B, later A B C,"
    )?;
    println!(rt;
        "forget, sleep, wake, rule A B C D E F G H. At the end it says what is surely obeyed."
    )?;
    Ok(())
}

// Each program has this: no clause can say what a file gives, so it is no function of a library.
fn read_file(rt: &HostRuntime, path: &str) -> io::Result<Vec<u8>> {
    let text = fs::read(rt, path);
    if let Err(error) = &text {
        eprintln!(rt; "ground: {path}: {error}")?;
    }
    text
}

fn station_of(rt: &HostRuntime, text: &[u8]) -> anyhow::Result<Station> {
    match parse_commands(rt.alloc(), text) {
        Ok(commands) => Ok(Station::new(commands)),
        Err(fault) => {
            let misread = Misread {
                program: "ground",
                of: " of the commands",
                text,
                fault,
            };
            eprintln!(rt; "{misread}")?;
            // Each program ends with its own words.
            match fault {
                Fault::Unreadable { .. } => Err(anyhow!("the commands cannot be read")),
                Fault::Memory => Err(anyhow!("no memory left")),
            }
        }
    }
}

fn hear_all(rt: &HostRuntime, mut station: Station) -> anyhow::Result<()> {
    for line in rt.lines(rt.alloc()) {
        hear(rt, &mut station, line?.as_str())?;
    }
    let obeyed = station.surely_obeyed();
    let rejected = station.known_rejected();
    eprintln!(rt;
        "ground: the first {obeyed} commands are surely obeyed, {rejected} of them rejected"
    )?;
    Ok(())
}

// A line that is no report, as one of a refusal, is passed over and said to be so.
fn hear(rt: &HostRuntime, station: &mut Station, line: &str) -> anyhow::Result<()> {
    let numbers = parse_report(rt.alloc(), line.as_bytes())?;
    let Some(report) = numbers.and_then(|numbers| Report::read(&numbers)) else {
        eprintln!(rt; "ground: no report: {line}")?;
        return Ok(());
    };
    station.hear(report);
    match station.next_frame() {
        Some(numbers) => {
            let frame = Event::Frame { numbers };
            println!(rt; "{frame}")?;
        }
        None => println!(rt; "none")?,
    }
    Ok(())
}
