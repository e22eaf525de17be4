// What an etype's lists add up to: its data size S, and how far its entries reach. For our own crates, which meet what is required here.
// By index, as `size_of` and `reach_of` count: the library's `sum` asks for its bound over every way that the iterator may run.
ghost use Rattle.std.specs.Prelude.{◌≡◌};
ghost use Rattle.view.specs.Parts.{WidthsValid, EntriesValid, size_of, reach_of};

use crate::View;

impl View {
    // S, how many data bytes an etype has: the sum of its widths.
    pub fn data_size(&self) -> u64
        requires { WidthsValid self.now.numbers.etype.entries self.now.widths }
        ensures { result ≡ size_of self.now.numbers.etype.entries self.now.widths }
    {
        let n = self.numbers.etype.entries as usize;
        let mut size = 0;
        for i in 0..n {
            size += self.widths[i];
        }
        size
    }

    // How far the entries reach: the greatest end of one.
    pub fn reach(&self) -> u64
        requires { EntriesValid self.now.numbers.etype.entries self.now.widths self.now.displacements }
        ensures { result ≡ reach_of self.now.widths self.now.displacements self.now.numbers.etype.entries }
    {
        let n = self.numbers.etype.entries as usize;
        let mut reach = 0;
        for i in 0..n {
            let end = self.displacements[i] + self.widths[i];
            reach = reach.max(end);
        }
        reach
    }
}
