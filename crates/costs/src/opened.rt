// A stream that was opened: where its sizes and costs stand.

ghost use Rattle.std.specs.Prelude.{◌≡◌, ◌+◌, ◌-◌, ◌*◌, ◌<◌, ◌≤◌, if◌then◌else◌};
ghost use Rattle.base.specs.Bytes.{u16_at};
ghost use Rattle.base.specs.Sums.{sum_from};
ghost use Rattle.table.specs.Stream.{in_form_two, opening, units_of, unaries_at, pairs_at};
ghost use Rattle.costs.specs.Instance.{dom_of};

// A stream, and how many bytes stand before its n: in form two one, in form one none.
#[derive(Clone, Copy)]
pub(crate) struct Opened<'a> {
    pub(crate) stream: &'a [u8],
    pub(crate) before: usize,
    pub(crate) ghost is: { before ≡ opening stream.now },
    pub(crate) ghost most: { before ≤ 1 },
}

impl<'a> Opened<'a> {
    pub(crate) fn new(stream: &'a [u8]) -> Opened<'a>
        ensures { result.stream.now ≡ stream.now }
    {
        let before = table::opening(stream);
        Opened { stream, before }
    }

    // n, as it stands there; 0 past the end.
    pub(crate) fn units(&self) -> u8
        ensures { result ≡ units_of self.now.stream.now }
    {
        base::byte_at(self.stream, self.before)
    }

    // The byte at which the unary costs begin, or in form one the pair costs.
    pub(crate) fn unaries_at(&self) -> usize
        ensures { (result ≡ unaries_at self.now.stream.now) × (result ≤ 257) }
    {
        self.before + 1 + usize::from(self.units())
    }

    // The byte at which the pair costs begin; the units have `values` values together.
    pub(crate) fn pairs_at(&self, values: usize) -> usize
        requires { (values ≡ sum_from (dom_of self.now.stream.now) 0 (units_of self.now.stream.now)) × (values ≤ 65025) }
        ensures { (result ≡ pairs_at self.now.stream.now) × (result ≤ 131072) }
    {
        self.unaries_at() + 2 * (self.before * values)
    }

    // The domain size of the unit at place k, 0 where there is none.
    pub(crate) fn size_at(&self, k: usize) -> u8
        requires { k < 256 }
        ensures { result ≡ dom_of self.now.stream.now k }
    {
        if k < usize::from(self.units()) {
            base::byte_at(self.stream, self.before + 1 + k)
        } else {
            0
        }
    }

    // The sizes of the first m units, added up.
    #[tactic(auto, using(crate::specs::Gather::Steps::sum_more))]
    pub(crate) fn all_sizes(&self, m: usize) -> usize
        requires { m < 256 }
        ensures { (result ≡ sum_from (dom_of self.now.stream.now) 0 m) × (result ≤ 255 * m) }
    {
        let mut sum = 0;
        for i in 0..m {
            sum += usize::from(self.size_at(i));
        }
        sum
    }

    // The unary cost of value v of a unit, the units before it having `values` values together; 0 in form one.
    pub(crate) fn unary_at(&self, values: usize, v: usize) -> u32
        requires { (values ≤ 65025) × (1 ≤ v) × (v < 256) }
        ensures { (result ≡ (if in_form_two self.now.stream.now then u16_at self.now.stream.now (unaries_at self.now.stream.now + 2 * (values + (v - 1))) else 0)) × (result < 65536) }
    {
        if self.before == 0 {
            return 0;
        }
        base::u16_at(self.stream, self.unaries_at() + 2 * (values + (v - 1)))
    }
}
