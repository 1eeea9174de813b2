// Cuts each path from the standard input, and compares the parts with those stored there.
// oracle/README.md tells what each line means.
#![tactic(auto)]

ghost use Rattle.std.specs.Prelude.{◌≡◌, ◌+◌, ◌^◌, ◌≤◌, ◌<◌, length};
ghost use Rattle.paths.specs.Shown.{BoundsFit};

use std::io;
use types::{MOST_PARTS, MOST_PATH};
use vectors::{Lossy, Numbers};

// What the line of a path starts with.
const PATH: u64 = 1;

// What a path is found to be, as its line says.
#[derive(Clone, Copy, PartialEq, Eq)]
enum Verdict {
    Cut,
    Refused,
}

// How many paths were read, and how many of them are refused.
#[derive(Clone, Copy)]
struct Totals {
    paths: usize,
    refused: usize,
}

// A line that says something else than what comes of its path.
#[derive(Clone, Copy)]
struct Differs;

fn main(rt: HostRuntime) {
    let mut room = vectors::blank();
    let (text, _) = vectors::read_text(&mut rt.stdin(), &mut room);
    let _ = replay(&Lossy(rt), text);
}

// The paths up to a line that is none, or up to the first that differs.
fn replay(rt: &impl Print, text: &[u8]) -> io::Result<()> {
    let mut numbers = Numbers::new(text);
    let mut totals = Totals {
        paths: 0,
        refused: 0,
    };
    while numbers.number() == PATH {
        let Ok(verdict) = check_line(&mut numbers) else {
            return println!(rt; "path {} differs", totals.paths + 1);
        };
        totals = counted(totals, verdict);
    }
    println!(rt; "paths {}, refused {}", totals.paths, totals.refused)
}

// With one path more.
fn counted(before: Totals, verdict: Verdict) -> Totals
    requires room { before.paths + 1 < 2 ^ 64 }
    requires some { before.refused ≤ before.paths }
    ensures paths { result.paths ≡ before.paths + 1 }
    ensures some { result.refused ≤ result.paths }
{
    let refused = match verdict {
        Verdict::Cut => before.refused,
        Verdict::Refused => before.refused + 1,
    };
    Totals {
        paths: before.paths + 1,
        refused,
    }
}

// A line from the length of its path on. A path that is longer than any allowed counts as a difference.
fn check_line(numbers: &mut Numbers<'_>) -> Result<Verdict, Differs>
    ensures { length numbers.new ≤ length numbers.old }
{
    let mut room = [0; MOST_PATH];
    let length = numbers.number() as usize;
    let path = room.get_mut(..length).ok_or(Differs)?;
    numbers.bytes(path);
    check_path(numbers, path)
}

// Cuts the path and compares what comes of it with the answer and the parts that the text has next.
fn check_path(numbers: &mut Numbers<'_>, path: &[u8]) -> Result<Verdict, Differs>
    ensures { length numbers.new ≤ length numbers.old }
{
    let mut starts = [0; MOST_PARTS];
    let mut lengths = [0; MOST_PARTS];
    let cut = paths::get_path_parts(path, &mut starts, &mut lengths);
    compare(numbers, u64::from(paths::cut_number(cut)))?;
    let Ok(parts) = cut else {
        return Ok(Verdict::Refused);
    };
    compare_parts(numbers, path, parts.count, &starts, &lengths)?;
    Ok(Verdict::Cut)
}

// Compares the parts that the bounds show with those that the text has next, up to the first that differs.
fn compare_parts(
    numbers: &mut Numbers<'_>,
    path: &[u8],
    count: usize,
    starts: &[u16; MOST_PARTS],
    lengths: &[u16; MOST_PARTS],
) -> Result<(), Differs>
    requires { BoundsFit path.now starts.now lengths.now count }
    ensures { length numbers.new ≤ length numbers.old }
{
    compare(numbers, count as u64)?;
    for i in 0..count {
        let start = usize::from(starts[i]);
        let end = start + usize::from(lengths[i]);
        compare_part(numbers, &path[start..end])?;
    }
    Ok(())
}

// Compares a part with the length and the bytes that the text has next.
fn compare_part(numbers: &mut Numbers<'_>, part: &[u8]) -> Result<(), Differs>
    ensures { length numbers.new ≤ length numbers.old }
{
    compare(numbers, part.len() as u64)?;
    for byte in part {
        compare(numbers, u64::from(*byte))?;
    }
    Ok(())
}

// Compares a number with the one that the text has next.
fn compare(numbers: &mut Numbers<'_>, found: u64) -> Result<(), Differs>
    ensures { length numbers.new ≤ length numbers.old }
{
    if numbers.number() == found {
        Ok(())
    } else {
        Err(Differs)
    }
}
