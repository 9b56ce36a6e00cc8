// A list that grows at the front of a lent slice: `len` elements are written, and what follows them is as it was lent.
#![tactic(auto)]

ghost use Rattle.std.specs.Prelude.{◌≡◌, ◌≤◌, length, take};
ghost use Rattle.writer.specs.Written.{Fits, Appends, Starts};

// Copies a slice into one as long.
// Kept: a loop, since `copy_from_slice` becomes a call of `memmove`, which the archive for C may not ask of its callers.
pub fn copy<T: Copy>(out: &mut [T], from: &[T])
    requires { length out.old ≡ length from.now }
    ensures { out.new ≡ from.now }
{
    for i in 0..from.len() {
        out[i] = from[i];
    }
}

// The slice, and how many of its elements are written.
// Kept: a slice with a length beside it, since the project has no heap.
// Kept: that there is room stands in each contract that writes, since room falls with each part that is written.
#[derive(Drop)]
pub struct Writer<'a, T: Copy> {
    pub room: &'a mut [T],
    pub len: usize,
}

impl<'a, T: Copy> Writer<'a, T> {
    // Nothing is written yet.
    pub fn new(room: &'a mut [T]) -> Writer<'a, T>
        ensures { Starts result room.entry }
    {
        Writer { room, len: 0 }
    }

    // What is written.
    pub fn written(&self) -> &[T]
        requires { self.now.len ≤ length self.now.room.now }
        ensures { result.now ≡ take self.now.len self.now.room.now }
    {
        &self.room[..self.len]
    }

    // Writes a part behind what is written.
    pub fn push(&mut self, part: &[T])
        requires { Fits part.now self.old }
        ensures { Appends part.now self.new self.old }
    {
        let end = self.len + part.len();
        copy(&mut self.room[self.len..end], part);
        self.len = end;
    }
}
