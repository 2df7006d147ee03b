//! The flat run: up to 65,536 bytes, whose bits are all used in order.
#![tactic(auto)]

ghost use Rattle.std.specs.Prelude.{◌≡◌, ◌*◌, ◌≤◌, length, refl};
ghost use Rattle.flat.specs.Flat.{flat_bits, flat_check};
ghost use Rattle.layout.specs.Laws.{kept_stays, kept_joined, stored_within, stored_length};
ghost use Rattle.layout.specs.Layout.{holding, reading, opened, lent, Kept};

use bits::{Sink, Source, StoreFault};
use layout::{LayoutFault, MOST_BYTES, has_bit, with_bit};

/// Asks whether the size is allowed (5) and whether the held bits fit (7), and answers the capacity.
pub fn check(bytes: &[u8], held: usize) -> Result<usize, LayoutFault>
    ensures { result ≡ flat_check bytes.now held }
{
    if bytes.len() > MOST_BYTES {
        return Err(LayoutFault::Size);
    }
    let capacity = 8 * bytes.len();
    if held > capacity {
        return Err(LayoutFault::Held);
    }
    Ok(capacity)
}

/// A flat run as a sink. The memory is the host's and fixed, so the count of held bits stands beside it.
#[derive(Drop)]
pub struct FlatSink<'a> {
    bytes: &'a mut [u8],
    capacity: usize,
    held: usize,
    ghost fits: { held ≤ capacity },
    ghost inside: { capacity ≤ 8 * length bytes.now },
}

impl<'a> FlatSink<'a> {
    /// A sink over bytes of which the first `held` bits are held already; where the check refuses, one of no bits and capacity 0.
    pub fn over(bytes: &'a mut [u8], held: usize) -> FlatSink<'a>
        ensures lent { result.bytes.ghost_name ≡ bytes.entry.ghost_name }
        ensures bytes { result.bytes.now ≡ bytes.old }
        ensures content { holding (flat_bits result.bytes.now result.held) result.capacity ≡ opened (flat_bits bytes.old held) (flat_check bytes.old held) }
    {
        let Ok(capacity) = check(bytes, held) else {
            return FlatSink {
                bytes,
                capacity: 0,
                held: 0,
            };
        };
        FlatSink {
            bytes,
            capacity,
            held,
        }
    }
}

impl<'a> Sink for FlatSink<'a> {
    ghost content = { λ s. holding (flat_bits s.bytes.now s.held) s.capacity };

    ghost within = { λ s. stored_within (λ i. i) s.bytes.now s.held s.capacity s.fits };

    ghost kept = { λ s t. Kept (λ i. i) (lent s.bytes.ghost_name s.bytes.now s.held) (lent t.bytes.ghost_name t.bytes.now t.held) };

    ghost stays = { λ s. kept_stays (λ i. i) (lent s.bytes.ghost_name s.bytes.now s.held) };

    ghost joined = { λ s t u. kept_joined (λ i. i) (λ i. i) _ _ _ (λ i. refl) };

    fn held(&self) -> usize {
        self.held
    }

    fn capacity(&self) -> usize {
        self.capacity
    }

    fn put(&mut self, bit: bool) -> Result<(), StoreFault> {
        let place = self.held;
        if place >= self.capacity {
            return Err(StoreFault::Full { position: place });
        }
        let byte = place / 8;
        self.bytes[byte] = with_bit(self.bytes[byte], place % 8, bit);
        self.held = place + 1;
        Ok(())
    }
}

/// A flat run as a source.
#[derive(Drop)]
pub struct FlatSource<'a> {
    bytes: &'a [u8],
    end: usize,
    position: usize,
    ghost inside: { end ≤ 8 * length bytes.now },
    ghost ahead: { position ≤ end },
}

impl<'a> FlatSource<'a> {
    /// A source of the first `held` bits of the bytes; where the check refuses, one of no bits.
    pub fn over(bytes: &'a [u8], held: usize) -> FlatSource<'a>
        ensures tape { reading (flat_bits result.bytes.now result.end) result.position ≡ reading (opened (flat_bits bytes.now held) (flat_check bytes.now held)).bits 0 }
    {
        let Ok(_) = check(bytes, held) else {
            return FlatSource {
                bytes,
                end: 0,
                position: 0,
            };
        };
        FlatSource {
            bytes,
            end: held,
            position: 0,
        }
    }
}

impl<'a> Source for FlatSource<'a> {
    ghost tape = { λ s. reading (flat_bits s.bytes.now s.end) s.position };

    ghost within = { λ s. stored_length (λ i. i) s.bytes.now s.position s.end s.ahead };

    fn position(&self) -> usize {
        self.position
    }

    fn length(&self) -> usize {
        self.end
    }

    fn take(&mut self) -> Result<bool, StoreFault> {
        let position = self.position;
        if position >= self.end {
            return Err(StoreFault::End { position });
        }
        self.position = position + 1;
        Ok(has_bit(self.bytes[position / 8], position % 8))
    }

    fn go_back(&mut self, to: usize) -> Result<(), StoreFault> {
        let position = self.position;
        if to > position {
            return Err(StoreFault::Ahead { position });
        }
        self.position = to;
        Ok(())
    }
}
