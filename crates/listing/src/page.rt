// One page that shows the lots: each a row, its lines as marks on one micron axis.
ghost use Rattle.std.specs.Prelude.{◌+◌, ◌≤◌, ◌<◌};

use crate::lines::{Lots, Tally};
use crate::lots::{Hundredths, Tenths};
use crate::{STDOUT_FILENO, put};
use print::Out;
use std::fmt;
use std::fmt::Write;

// The page as far as its axis.
const HEAD: &str = "<!DOCTYPE html>
<html lang=\"en\">
<head>
<meta charset=\"utf-8\">
<title>Lots</title>
<style>
body { font: 16px/1.4 sans-serif; color: #222; background: #fff; margin: 24px; }
table { border-collapse: collapse; }
th, td { padding: 6px 14px; border-top: 1px solid #bbb; text-align: right; vertical-align: middle; }
th { font-weight: 600; border-top: 0; }
td.lines, th.lines { text-align: left; padding: 0; }
svg { display: block; font: 13px sans-serif; }
circle { fill: #0b6e99; }
.mean { stroke: #c2410c; stroke-width: 2; }
.spread { stroke: #9fc6d8; stroke-width: 6; }
.tick { stroke: #ddd; }
text { paint-order: stroke; stroke: #fff; stroke-width: 4px; }
</style>
</head>
<body>
<h1>Lots</h1>
<table>
";

// The width of the axis, its place, and half way along it, in pixels.
const WIDTH: u64 = 600;

const LEFT: u64 = 40;

const HALF: u64 = 340;

pub(crate) fn print(lots: Lots, total: u32) -> fmt::Result {
    let axis = Axis::of(lots);
    write!(
        Out(STDOUT_FILENO),
        "{HEAD}<tr><th>lot</th><th class=\"lines\">"
    )?;
    print_axis(axis)?;
    writeln!(
        Out(STDOUT_FILENO),
        "</svg></th><th>mean</th><th>spread</th></tr>"
    )?;
    for lot in 1..=16 {
        let t = lots.tally(lot);
        if t.lines > 0 {
            print_lot(lots, lot, t, axis)?;
        }
    }
    writeln!(Out(STDOUT_FILENO), "</table>")?;
    writeln!(
        Out(STDOUT_FILENO),
        "<p>mean and spread in microns; total cost <b>{total}</b></p>"
    )?;
    writeln!(Out(STDOUT_FILENO), "</body>\n</html>")
}

// ---- the axis

// The axis: its first and last reading, in tenths of a micron, whole microns both.
#[derive(Clone, Copy, Debug)]
struct Axis {
    from: u32,
    to: u32,
}

impl Axis {
    // From the micron at or below the finest line to that at or above the coarsest. In lot 0 are all lines.
    fn of(lots: Lots) -> Axis {
        let all = Lots {
            values: [0; 16],
            ..lots
        };
        let t = all.tally(0);
        let from = t.least % 65536 / 10 * 10;
        let to = (t.most % 65536 + 9) / 10 * 10;
        Axis {
            from,
            to: if from < to { to } else { from + 10 },
        }
    }

    // Where a reading of so many hundredths of a micron stands, in pixels.
    fn place(self, x: u64) -> u64
        ensures { (40 ≤ result) × (result < 8589934592) }
    {
        let from = 10 * u64::from(self.from);
        let to = 10 * u64::from(self.to);
        if x < from {
            return LEFT;
        }
        if to <= x {
            return LEFT + WIDTH;
        }
        LEFT + ((x - from) * WIDTH / (to - from)).min(WIDTH)
    }
}

// The microns of the axis, each with its number.
fn print_axis(axis: Axis) -> fmt::Result {
    write!(Out(STDOUT_FILENO), "<svg width=\"680\" height=\"26\">")?;
    for micron in axis.from / 10..=axis.to / 10 {
        let x = axis.place(100 * u64::from(micron));
        write!(
            Out(STDOUT_FILENO),
            "<text x=\"{x}\" y=\"18\" text-anchor=\"middle\">{micron}</text>"
        )?;
    }
    Ok(())
}

// ---- lots

fn print_lot(lots: Lots, lot: u8, t: Tally, axis: Axis) -> fmt::Result {
    let height = 20 * u64::from(t.lines) + 16;
    write!(
        Out(STDOUT_FILENO),
        "<tr><td>{lot}</td><td class=\"lines\"><svg width=\"680\" height=\"{height}\">"
    )?;
    print_bar("tick", LEFT, height)?;
    print_bar("tick", LEFT + WIDTH, height)?;
    print_spread(axis, t)?;
    print_bar("mean", axis.place(t.mean()), height)?;
    print_marks(lots, lot, axis)?;
    let mean = Hundredths(t.mean());
    let spread = Tenths(t.spread());
    writeln!(
        Out(STDOUT_FILENO),
        "</svg></td><td>{mean}</td><td>{spread}</td></tr>"
    )
}

// From the least reading of a lot to its most.
fn print_spread(axis: Axis, t: Tally) -> fmt::Result {
    let from = axis.place(10 * u64::from(t.least));
    let to = axis.place(10 * u64::from(t.most));
    write!(
        Out(STDOUT_FILENO),
        "<line class=\"spread\" y1=\"6\" y2=\"6\" x1=\"{from}\" x2=\"{to}\"/>"
    )
}

fn print_bar(class: &str, x: u64, height: u64) -> fmt::Result {
    write!(
        Out(STDOUT_FILENO),
        "<line class=\"{class}\" x1=\"{x}\" x2=\"{x}\" y1=\"0\" y2=\"{height}\"/>"
    )
}

// A mark for each line of a lot, one below the other.
fn print_marks(lots: Lots, lot: u8, axis: Axis) -> fmt::Result {
    let mut y = 22;
    for k in 0..16 {
        if lots.is_in(lot, k) {
            print_mark(lots, k, axis, y)?;
            y += 20;
        }
    }
    Ok(())
}

// The mark of line k, and beside it the name, towards the middle of the axis.
fn print_mark(lots: Lots, k: usize, axis: Axis, y: u64) -> fmt::Result
    requires { (k < 16) × (y < 65536) }
{
    let x = axis.place(10 * u64::from(lots.reading(k)));
    let below = y + 5;
    write!(
        Out(STDOUT_FILENO),
        "<circle r=\"5\" cx=\"{x}\" cy=\"{y}\"/><text y=\"{below}\" x=\""
    )?;
    if x < HALF {
        write!(Out(STDOUT_FILENO), "{}\">", x + 10)?;
    } else {
        write!(Out(STDOUT_FILENO), "{}\" text-anchor=\"end\">", x - 10)?;
    }
    print_escaped(lots.name(k))?;
    write!(Out(STDOUT_FILENO), " {}</text>", Tenths(lots.reading(k)))
}

// A name, with what would be markup written as text.
fn print_escaped(name: &[u8]) -> fmt::Result {
    for b in name {
        match *b {
            b'&' => put(b"&amp;")?,
            b'<' => put(b"&lt;")?,
            b'>' => put(b"&gt;")?,
            b'"' => put(b"&quot;")?,
            b'\'' => put(b"&#39;")?,
            0..=31 | 127 => put(b" ")?,
            c => put(&[c])?,
        }
    }
    Ok(())
}
