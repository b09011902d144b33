//! A supply of more numbers than a bank can have.

use supply::{Fault, Supply};

/// 5,000 numbers, of which the first alone may be taken.
#[derive(Drop)]
pub struct Wide {
    pub out: bool,
}

impl Supply for Wide {
    ghost use Rattle.shared_tests.specs.Wides.{wide_stock, wide_sound};

    ghost stock = { λ s. wide_stock s.out };

    ghost sound = { λ s. wide_sound s.out };

    fn take(&mut self) -> Result<u16, Fault> {
        if self.out {
            return Err(Fault::NONE_LEFT);
        }
        self.out = true;
        Ok(0)
    }

    fn give_back(&mut self, node: u16) -> Result<(), Fault> {
        if node != 0 {
            return Err(Fault::Breach);
        }
        if !self.out {
            return Err(Fault::Breach);
        }
        self.out = false;
        Ok(())
    }

    fn size(&self) -> u16 {
        5000
    }

    fn allowance(&self) -> u16 {
        if self.out { 0 } else { 1 }
    }

    fn is_out(&self, node: u16) -> bool {
        node == 0 && self.out
    }

    fn out_count(&self) -> u16 {
        if self.out { 1 } else { 0 }
    }
}
