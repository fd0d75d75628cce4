// A bit reader: it holds the lent table and the place of a bit. Thin, above `bits::field`, which does the work.
ghost use Rattle.std.specs.Prelude.{◌≡◌};
ghost use Rattle.term.specs.Bits.{field, Within};

#[derive(Drop)]
pub struct Reader<'a> {
    pub table: &'a [u8],
    pub bit: usize,
}

impl<'a> Reader<'a> {
    // A reader at a bit of the table.
    pub fn new(table: &'a [u8], bit: usize) -> Self
        ensures { (result.table ≡ table.entry) × (result.bit ≡ bit) }
    {
        Reader { table, bit }
    }

    // The field of `count` bits at the reader's place.
    pub fn take(self, count: usize) -> u64
        requires { Within self.table.now self.bit count }
        ensures { result ≡ field self.entry.table.now self.entry.bit count }
    {
        super::bits::field(self.table, self.bit, count)
    }
}

// The same over a plain slice and place: who calls it sees no reader.
pub fn read_field(table: &[u8], bit: usize, count: usize) -> u64
    requires { Within table.now bit count }
    ensures { result ≡ field table.now bit count }
{
    Reader::new(table, bit).take(count)
}
