//! A supply with one bit for each number.

ghost use Rattle.std.specs.Prelude.{◌≡◌, ℕ, ◌<◌, ◌≤◌, true, false, not, drop, set, slice_index_or, slice_set};
ghost use Rattle.supply.specs.Stocks.{Taken, fresh, kept_size, marked};
ghost use Rattle.supply.specs.Words.{TookLowest, spread, bit_stock};
ghost use Rattle.supply.specs.StockLaws.{bits_sound};

use crate::{Fault, MOST, Supply, kept_size};

const WORDS: usize = MOST as usize / 64;

/// One bit for each number, set where it is out. The bits past the size are clear.
#[derive(Drop)]
pub struct Bitmap {
    size: u16,
    words: [u64; WORDS],
    ghost fits: { size ≤ 4096 },
    ghost clear: { marked (drop size (spread words)) ≡ 0 },
}

impl Bitmap {
    /// `size` numbers, none out; or no numbers, where `size` is above `MOST`.
    pub fn new(size: u16) -> Bitmap
        ensures { bit_stock result.size result.words ≡ fresh (kept_size size) }
    {
        let size = kept_size(size);
        Bitmap {
            size,
            words: [0; WORDS],
        }
    }

    /// How many bits are set.
    fn ones(&self) -> u16
        ensures { result ≡ marked (spread self.now.words) }
    {
        let words = self.words.as_slice();
        words.iter().map(|w| w.count_ones() as u16).sum()
    }

    /// The lowest number whose bit is clear, or `MOST`.
    fn lowest(&self) -> u16
        ensures most { result ≤ 4096 }
        ensures before { (k : ℕ) → k < result → slice_index_or (spread self.now.words) k false ≡ true }
        ensures here { slice_index_or (spread self.now.words) result false ≡ false }
    {
        for (i, word) in self.words.iter().enumerate() {
            let unused = !*word;
            if unused != 0 {
                return (i * 64) as u16 + unused.trailing_zeros() as u16;
            }
        }
        MOST
    }

    /// Whether the bit of `node` is set.
    fn bit(&self, node: u16) -> bool
        requires { node < 4096 }
        ensures { result ≡ slice_index_or (spread self.now.words) node false }
    {
        (self.words[node as usize / 64] >> (node % 64)) & 1 == 1
    }

    /// Turns the bit of `node`.
    fn flip(&mut self, node: u16)
        requires { node < self.old.size }
        ensures size { self.new.size ≡ self.old.size }
        ensures turned { let bits = spread self.old.words in spread self.new.words ≡ slice_set bits node (not (slice_index_or bits node false)) }
    {
        self.words[node as usize / 64] ^= 1 << (node % 64);
    }
}

impl Supply for Bitmap {
    ghost stock = { λ s. bit_stock s.size s.words };

    ghost sound = { λ s. bits_sound s.size s.words s.fits };

    /// The lowest number that is not out.
    fn take(&mut self) -> Result<u16, Fault>
        ensures taken { let s = self.old in let t = self.new in Taken (bit_stock s.size s.words) (bit_stock t.size t.words) result }
        ensures lowest { let s = self.old in TookLowest (bit_stock s.size s.words) result }
    {
        let node = self.lowest();
        if node >= self.size {
            return Err(Fault::NONE_LEFT);
        }
        self.flip(node);
        Ok(node)
    }

    fn give_back(&mut self, node: u16) -> Result<(), Fault> {
        if !self.is_out(node) {
            return Err(Fault::Breach);
        }
        self.flip(node);
        Ok(())
    }

    fn size(&self) -> u16 {
        self.size
    }

    fn allowance(&self) -> u16 {
        self.size - self.ones()
    }

    fn is_out(&self, node: u16) -> bool {
        node < self.size && self.bit(node)
    }

    fn out_count(&self) -> u16 {
        self.ones()
    }
}
