//! The chain: 32-byte blocks in 64 to 65,536 bytes. A block begins with the index of the next one, big-endian, and zero ends the chain;
//! its other 30 bytes carry 240 bits.
#![tactic(auto)]

ghost use Rattle.std.specs.Prelude.{◌≡◌, ℕ, ◌+◌, ◌*◌, ◌/◌, ◌<◌, ◌≤◌, length, Result, MatchOption};
ghost use Rattle.layout.specs.declared.LayoutFault.{LayoutFault as Fault};
ghost use Rattle.chain.specs.Chain.{link as link_of, met, Linked, Chained, spot, chain_bits, Checked, opens_at, laid, ChainKept};
ghost use Rattle.chain.specs.Laws.{chain_stays, chain_joined};
ghost use Rattle.layout.specs.Laws.{stored_within, stored_length};
ghost use Rattle.layout.specs.Layout.{holding, reading, opened, lent};

use bits::{Sink, Source, StoreFault};
use layout::{LayoutFault, MOST_BYTES, has_bit, with_bit};

/// The fewest bytes of a chain.
pub const FEWEST_BYTES: usize = 64;

/// The index that a block begins with.
fn link(bytes: &[u8], block: usize) -> usize
    requires { block < length bytes.now / 32 }
    ensures { result ≡ link_of bytes.now block }
{
    bytes[32 * block] as usize * 256 + bytes[32 * block + 1] as usize
}

/// The block of the bit after one that stands in `block`: the next one in the chain after the last of a block's bits.
fn block_after(bytes: &[u8], block: usize, bit: usize) -> usize
    requires { block < length bytes.now / 32 }
    ensures { (first : ℕ) → block ≡ met bytes.now first (bit / 240) → result ≡ met bytes.now first ((bit + 1) / 240) }
{
    if bit % 240 == 239 {
        link(bytes, block)
    } else {
        block
    }
}

/// How many blocks the chain has, if it is one. A chain that ends meets no block twice, and one that has not ended
/// after as many links as there are blocks never ends.
fn blocks_in(bytes: &[u8], first: usize) -> Option<usize>
    requires { 0 < length bytes.now / 32 }
    ensures { MatchOption result ((n : ℕ) → Chained bytes.now first n → ⊥) (λ n. Chained bytes.now first n × (n < length bytes.now / 32)) }
{
    let blocks = bytes.len() / 32;
    let mut block = first;
    for n in 0..blocks {
        if block == 0 {
            return Some(n);
        }
        if block >= blocks {
            return None;
        }
        block = link(bytes, block);
    }
    None
}

/// The index that is met after some links.
fn block_at(bytes: &[u8], first: usize, links: usize) -> usize
    requires { (k : ℕ) → k < links → met bytes.now first k < length bytes.now / 32 }
    ensures { result ≡ met bytes.now first links }
{
    let mut block = first;
    for k in 0..links {
        block = link(bytes, block);
    }
    block
}

/// Asks whether the size is allowed (5), whether each index before the closing zero is inside and no block is met twice (6),
/// and whether the held bits fit (7), and answers the capacity.
pub fn check(bytes: &[u8], first: u16, held: usize) -> Result<usize, LayoutFault>
    ensures checked { Checked bytes.now first held result }
    ensures only { (q : Result ℕ Fault) → Checked bytes.now first held q → q ≡ result }
{
    let size = bytes.len();
    if size < FEWEST_BYTES || size > MOST_BYTES || size % 32 != 0 {
        return Err(LayoutFault::Size);
    }
    let Some(count) = blocks_in(bytes, first as usize) else {
        return Err(LayoutFault::Links);
    };
    let capacity = 240 * count;
    if held > capacity {
        return Err(LayoutFault::Held);
    }
    Ok(capacity)
}

/// A chain as a sink, over fixed memory of the host's. Not one type with the flat run's sink, which has no block to know: this one knows the block of the next bit, so that a put does not walk the chain.
#[derive(Drop)]
pub struct ChainSink<'a> {
    bytes: &'a mut [u8],
    first: usize,
    count: usize,
    held: usize,
    block: usize,
    ghost linked: { Linked bytes.now first count },
    ghost fits: { held ≤ 240 * count },
    ghost here: { block ≡ met bytes.now first (held / 240) },
    ghost small: { count ≤ 2048 },
    ghost sized: { (0 < count → length bytes.now ≤ 65536) },
}

/// A chain as a source. It knows the block of the next bit, so that a take does not walk the chain.
#[derive(Drop)]
pub struct ChainSource<'a> {
    bytes: &'a [u8],
    first: usize,
    count: usize,
    end: usize,
    position: usize,
    block: usize,
    ghost linked: { Linked bytes.now first count },
    ghost fits: { end ≤ 240 * count },
    ghost here: { block ≡ met bytes.now first (position / 240) },
    ghost ahead: { position ≤ end },
}

impl<'a> ChainSink<'a> {
    /// A sink over a chain of which the first `held` bits are held already; where the check refuses, one of no bits and capacity 0.
    pub fn over(bytes: &'a mut [u8], first: u16, held: usize) -> ChainSink<'a>
        ensures lent { result.bytes.ghost_name ≡ bytes.entry.ghost_name }
        ensures bytes { result.bytes.now ≡ bytes.old }
        ensures content { (q : Result ℕ Fault) × Checked bytes.old first held q × (result.first ≡ opens_at first q) × (holding (chain_bits result.bytes.now result.first result.held) (240 * result.count) ≡ opened (chain_bits bytes.old first held) q) }
    {
        let Ok(capacity) = check(bytes, first, held) else {
            return ChainSink {
                bytes,
                first: 0,
                count: 0,
                held: 0,
                block: 0,
            };
        };
        let first = first as usize;
        let block = block_at(bytes, first, held / 240);
        ChainSink {
            bytes,
            first,
            count: capacity / 240,
            held,
            block,
        }
    }

    /// The block of the bit after the next one.
    fn next_block(&self) -> usize
        requires { self.now.held < 240 * self.now.count }
        ensures { result ≡ met self.now.bytes.now self.now.first ((self.now.held + 1) / 240) }
    {
        block_after(self.bytes, self.block, self.held)
    }
}

impl<'a> Sink for ChainSink<'a> {
    ghost content = { λ s. holding (chain_bits s.bytes.now s.first s.held) (240 * s.count) };

    ghost within = { λ s. stored_within (spot s.bytes.now s.first) s.bytes.now s.held (240 * s.count) s.fits };

    ghost kept = { λ s t. ChainKept (laid (lent s.bytes.ghost_name s.bytes.now s.held) s.first s.count) (laid (lent t.bytes.ghost_name t.bytes.now t.held) t.first t.count) };

    ghost stays = { λ s. chain_stays (laid (lent s.bytes.ghost_name s.bytes.now s.held) s.first s.count) };

    ghost joined = { λ s t u. chain_joined _ _ _ };

    fn held(&self) -> usize {
        self.held
    }

    fn capacity(&self) -> usize {
        240 * self.count
    }

    fn put(&mut self, bit: bool) -> Result<(), StoreFault> {
        let held = self.held;
        if held >= 240 * self.count {
            return Err(StoreFault::Full { position: held });
        }
        let block = self.block;
        let place = held % 240;
        let next = self.next_block();
        let spot = 256 * block + (16 + place);
        self.bytes[spot / 8] = with_bit(self.bytes[spot / 8], spot % 8, bit);
        self.held = held + 1;
        self.block = next;
        Ok(())
    }
}

impl<'a> ChainSource<'a> {
    /// A source of the first `held` bits of a chain; where the check refuses, one of no bits.
    pub fn over(bytes: &'a [u8], first: u16, held: usize) -> ChainSource<'a>
        ensures tape { (q : Result ℕ Fault) × Checked bytes.now first held q × (reading (chain_bits result.bytes.now result.first result.end) result.position ≡ reading (opened (chain_bits bytes.now first held) q).bits 0) }
    {
        let Ok(capacity) = check(bytes, first, held) else {
            return ChainSource {
                bytes,
                first: 0,
                count: 0,
                end: 0,
                position: 0,
                block: 0,
            };
        };
        let first = first as usize;
        ChainSource {
            bytes,
            first,
            count: capacity / 240,
            end: held,
            position: 0,
            block: first,
        }
    }
}

impl<'a> Source for ChainSource<'a> {
    ghost tape = { λ s. reading (chain_bits s.bytes.now s.first s.end) s.position };

    ghost within = { λ s. stored_length (spot s.bytes.now s.first) s.bytes.now s.position s.end s.ahead };

    fn position(&self) -> usize {
        self.position
    }

    fn length(&self) -> usize {
        self.end
    }

    fn take(&mut self) -> Result<bool, StoreFault> {
        let position = self.position;
        if position >= self.end {
            return Err(StoreFault::End { position });
        }
        let place = position % 240;
        let byte = self.bytes[32 * self.block + (2 + place / 8)];
        let next = block_after(self.bytes, self.block, position);
        self.position = position + 1;
        self.block = next;
        Ok(has_bit(byte, place % 8))
    }

    fn go_back(&mut self, to: usize) -> Result<(), StoreFault> {
        let position = self.position;
        if to > position {
            return Err(StoreFault::Ahead { position });
        }
        let block = block_at(self.bytes, self.first, to / 240);
        self.position = to;
        self.block = block;
        Ok(())
    }
}
