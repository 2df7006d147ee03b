//! Sinks and sources of bits: what each means, and fields of fixed width through them.
#![tactic(auto)]

ghost use Rattle.std.specs.Prelude.{◌≡◌, ℕ, ◌+◌, ◌-◌, ◌*◌, ◌<◌, ◌≤◌, List, [], ◌∷◌, ◌++◌, length, is_ok, refl};
ghost use Rattle.std.proofs.Common.{◌∙◌};
ghost use Rattle.bits.specs.Codes.{bit as bit_of, fixed};
ghost use Rattle.bits.specs.Stores.{Content, HasRoom, appended, Room, Put, Tape, left, ReadAs, Reads, one_bit, one_field, Back, returned};
ghost use Rattle.bits.specs.Faults.{store_told, store_at};

mod messages;

/// Why a sink or a source refuses a call. Each case tells the place, as a bit position.
#[derive(Clone, Copy, Debug, PartialEq, Eq)]
pub enum StoreFault {
    /// The sink has no room for the bits: the place where the first of them would go (10).
    Full { position: usize },
    /// The source ends before the last bit of the field: the place of the field's first bit (17).
    End { position: usize },
    /// The place to go back to lies ahead: the position, where the source stays (27).
    Ahead { position: usize },
}

/// The layer in which a fault arose.
#[derive(Clone, Copy, Debug, PartialEq, Eq)]
pub enum Layer {
    Store,
    Number,
    List,
    Drawing,
}

/// What a fault tells.
#[derive(Clone, Copy, Debug, PartialEq, Eq)]
pub struct Told {
    /// The refusal number: what is printed and quoted, so a number here too, and an enum in each fault.
    pub number: u8,
    /// The layer in which it arose.
    pub layer: Layer,
    /// The place, as a bit position.
    pub position: usize,
}

impl StoreFault {
    /// Its number, its layer and its place.
    pub fn told(&self) -> Told
        ensures { result ≡ store_told self.now }
    {
        let (number, position) = match *self {
            StoreFault::Full { position } => (10, position),
            StoreFault::End { position } => (17, position),
            StoreFault::Ahead { position } => (27, position),
        };
        let layer = Layer::Store;
        Told {
            number,
            layer,
            position,
        }
    }

    /// The same fault, told at another place.
    pub fn at(self, position: usize) -> StoreFault
        ensures { result ≡ store_at position self }
    {
        match self {
            StoreFault::Full { .. } => StoreFault::Full { position },
            StoreFault::End { .. } => StoreFault::End { position },
            StoreFault::Ahead { .. } => StoreFault::Ahead { position },
        }
    }
}

/// Whether the bit of weight 2 ^ `k` is set.
pub fn has_bit(value: u32, k: u8) -> bool
    ensures { result ≡ bit_of k value }
{
    k < 32 && (value >> k) % 2 == 1
}

/// Takes bits, as many as its capacity.
pub trait Sink {
    ghost content: { Self → Content };

    ghost within: { (s : Self) → length (content s).bits ≤ (content s).capacity };

    // What holds between a sink and the same sink later: it writes to the same memory, and there all but the bits put is as before.
    ghost kept: { Self → Self → Type 0 };

    ghost stays: { (s : Self) → kept s s };

    ghost joined: { (s t u : Self) → kept s t → kept t u → kept s u };

    /// How many bits are held.
    fn held(&self) -> usize
        ensures { result ≡ length (content self.now).bits };

    /// How many bits can be held.
    fn capacity(&self) -> usize
        ensures { result ≡ (content self.now).capacity };

    /// Whether there is room for `count` bits more, or the refusal 10.
    fn room_for(&self, count: usize) -> Result<(), StoreFault>
        ensures { Room (content self.now) count result }
    {
        let position = self.held();
        if self.capacity() - position < count {
            return Err(StoreFault::Full { position });
        }
        Ok(())
    }

    /// Puts one bit at the end, or refuses with 10 and stays as it is.
    fn put(&mut self, bit: bool) -> Result<(), StoreFault>
        ensures kept { kept self.old self.new }
        ensures put { Put (content self.old) (bit ∷ []) result (content self.new) };

    /// Puts the low `width` bits of `value`, the most significant first, with zeros before them where `width` is over 32;
    /// or refuses with 10, puts none and stays as it is.
    fn put_field(&mut self, width: u8, value: u32) -> Result<(), StoreFault>
        ensures kept { kept self.old self.new }
        ensures put { Put (content self.old) (fixed width value) result (content self.new) }
    {
        self.room_for(width as usize)?;
        for k in (0..width).rev() {
            self.put(has_bit(value, k))?;
        }
        Ok(())
    }
}

/// Gives bits, from a position that moves on.
pub trait Source {
    ghost tape: { Self → Tape };

    ghost within: { (s : Self) → (tape s).position ≤ length (tape s).bits };

    /// Where the next bit is.
    fn position(&self) -> usize
        ensures { result ≡ (tape self.now).position };

    /// How many bits there are in all.
    fn length(&self) -> usize
        ensures { result ≡ length (tape self.now).bits };

    /// Takes the next bit, or refuses with 17 and stays as it is.
    fn take(&mut self) -> Result<bool, StoreFault>
        ensures { Reads one_bit (tape self.old) result (tape self.new) };

    /// Goes back to a place at or before the position, or refuses with 27 and stays as it is.
    fn go_back(&mut self, to: usize) -> Result<(), StoreFault>
        ensures { Back (tape self.old) to result (tape self.new) };

    /// Takes the next `width` bits as a number, of which the low 32 bits are answered; or refuses with 17, takes none and stays as it is.
    fn take_field(&mut self, width: u8) -> Result<u32, StoreFault>
        ensures { Reads (one_field width) (tape self.old) result (tape self.new) }
    {
        let position = self.position();
        if self.length() - position < width as usize {
            return Err(StoreFault::End { position });
        }
        let mut value = 0;
        for _k in 0..width {
            let bit = self.take()?;
            value = value % 0x8000_0000 * 2 + u32::from(bit);
        }
        Ok(value)
    }
}

/// Puts a field where room for it is known. For the layers above, which ask for room once.
pub fn append<S: Sink>(sink: &mut S, width: u8, value: u32)
    requires { HasRoom (S.content sink.old) (fixed width value) }
    ensures kept { S.kept sink.old sink.new }
    ensures content { S.content sink.new ≡ appended (S.content sink.old) (fixed width value) }
{
    let _ = sink.put_field(width, value);
}

/// Takes the next `width` bits as a part of the field that begins at `field`: a refusal is told there.
pub fn take_part<S: Source>(source: &mut S, width: u8, field: usize) -> Result<u32, StoreFault>
    ensures { ReadAs (one_field width field (left (S.tape source.old))) (S.tape source.old) result (S.tape source.new) }
{
    source.take_field(width).map_err(|fault| fault.at(field))
}

/// Hands an answer on; where it is a refusal, the source goes back to `start` first.
/// For the layers above, whose refused calls leave the source as it was.
pub fn or_back<S: Source, T, E>(source: &mut S, start: usize, answer: Result<T, E>) -> Result<T, E>
    requires { start ≤ (S.tape source.old).position }
    ensures answer { result ≡ answer }
    ensures tape { S.tape source.new ≡ returned (is_ok answer) start (S.tape source.old) }
{
    if answer.is_err() {
        let _ = source.go_back(start);
    }
    answer
}

/// A sink that is lent is a sink.
impl<'a, S: Sink> Sink for &'a mut S {
    ghost content = { λ s. S.Sink.content s.now };

    ghost within = { λ s. S.Sink.within s.now };

    ghost kept = { λ s t. (t.ghost_name ≡ s.ghost_name) × S.Sink.kept s.now t.now };

    ghost stays = { λ s. (refl, S.Sink.stays s.now) };

    ghost joined = { λ s t u k l. (l.0 ∙ k.0, S.Sink.joined s.now t.now u.now k.1 l.1) };

    fn held(&self) -> usize {
        (**self).held()
    }

    fn capacity(&self) -> usize {
        (**self).capacity()
    }

    fn put(&mut self, bit: bool) -> Result<(), StoreFault> {
        (**self).put(bit)
    }

    fn put_field(&mut self, width: u8, value: u32) -> Result<(), StoreFault> {
        (**self).put_field(width, value)
    }
}

/// A source that is lent is a source.
impl<'a, S: Source> Source for &'a mut S {
    ghost tape = { λ s. S.Source.tape s.now };

    ghost within = { λ s. S.Source.within s.now };

    fn position(&self) -> usize {
        (**self).position()
    }

    fn length(&self) -> usize {
        (**self).length()
    }

    fn take(&mut self) -> Result<bool, StoreFault> {
        (**self).take()
    }

    fn go_back(&mut self, to: usize) -> Result<(), StoreFault> {
        (**self).go_back(to)
    }

    fn take_field(&mut self, width: u8) -> Result<u32, StoreFault> {
        (**self).take_field(width)
    }
}
