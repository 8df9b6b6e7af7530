// The lines of wool of a sheet: names, readings, and those of a lot together.
ghost use Rattle.std.specs.Prelude.{◌+◌, ◌≤◌, ◌<◌};

use rows::Sheet;

// The lines of wool of a sheet with their names, and the lot of each.
#[derive(Clone, Copy)]
pub(crate) struct Lots<'a> {
    pub(crate) sheet: Sheet,
    pub(crate) names: &'a [u8],
    pub(crate) values: [u8; 16],
}

impl<'a> Lots<'a> {
    // How many lines there are.
    pub(crate) fn count(self) -> usize
        ensures { result ≤ 16 }
    {
        self.sheet.count.min(16)
    }

    // The name of line k, from 0: it stands behind those before it.
    pub(crate) fn name(self, k: usize) -> &'a [u8]
        requires { k < 16 }
    {
        let start = self.start(k);
        let end = self.start(k + 1);
        self.names.get(start..end).unwrap_or(&[])
    }

    fn start(self, k: usize) -> usize
        requires { k ≤ 16 }
    {
        self.sheet.entries[..k]
            .iter()
            .fold(0usize, |at, entry| at.saturating_add(entry.length))
    }

    // The reading of line k, in tenths of a micron.
    pub(crate) fn reading(self, k: usize) -> u32
        requires { k < 16 }
        ensures { result < 65536 }
    {
        u32::from(self.sheet.entries[k].reading)
    }

    // Whether line k is there, and in this lot.
    pub(crate) fn is_in(self, lot: u8, k: usize) -> bool
        requires { k < 16 }
    {
        k < self.sheet.count && self.values[k] == lot
    }

    // The lines of a lot together.
    pub(crate) fn tally(self, lot: u8) -> Tally {
        let mut t = Tally {
            lines: 0,
            sum: 0,
            least: 65535,
            most: 0,
        };
        for k in 0..16 {
            if self.is_in(lot, k) {
                t = t.with(self.reading(k));
            }
        }
        t
    }
}

// How many lines a lot has, the sum of their readings, the least and the most of them.
#[derive(Clone, Copy, Debug)]
pub(crate) struct Tally {
    pub(crate) lines: u32,
    pub(crate) sum: u32,
    pub(crate) least: u32,
    pub(crate) most: u32,
}

impl Tally {
    // With one line more, of this reading.
    fn with(self, x: u32) -> Tally
        requires { (self.lines < 65536) × (self.sum < 16777216) × (x < 65536) }
        ensures { (result.lines ≤ self.lines + 1) × (result.sum ≤ self.sum + 65536) }
    {
        Tally {
            lines: self.lines + 1,
            sum: self.sum + x,
            least: self.least.min(x),
            most: self.most.max(x),
        }
    }

    // The mean, in hundredths of a micron, rounded to the nearest, half upward.
    pub(crate) fn mean(self) -> u64 {
        if self.lines == 0 {
            return 0;
        }
        let lines = u64::from(self.lines);
        (10 * u64::from(self.sum) + lines / 2) / lines
    }

    // The spread, in tenths of a micron: the most less the least.
    pub(crate) fn spread(self) -> u32 {
        self.most.saturating_sub(self.least)
    }
}

// The first n bytes, or all that there are.
pub(crate) fn front(bytes: &[u8], n: usize) -> &[u8] {
    &bytes[..n.min(bytes.len())]
}
