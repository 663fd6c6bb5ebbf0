// The part of a trace that a program holds while it reads on: the octets that were read and not yet replayed stand at its start.
#![tactic(auto)]

ghost use Rattle.std.specs.Prelude.{◌≡◌};
ghost use Rattle.window.specs.Window.{new_window, kept, held};

// Twice 64 KiB: a record has at most 65,549 octets, so that there is room for more to be read behind one that is cut.
const ROOM: usize = 131072;

#[derive(Clone, Copy)]
pub struct Window {
    pub octets: [u8; ROOM],
    pub count: usize,
}

// The octets from `at` to `count` go to the start. Answers how many they are; 0, and nothing moves, where there is no such part.
#[tactic(auto, unfolding(crate::specs::Window::kept))]
pub fn keep(window: &mut [u8], at: usize, count: usize) -> usize
    ensures { (result, window.new) ≡ kept window.old at count }
{
    if (window.len() < count) | (count < at) {
        return 0;
    }
    window.copy_within(at..count, 0);
    count - at
}

impl Window {
    #[tactic(auto, unfolding(crate::specs::Window::empty_window))]
    pub fn empty() -> Window
        ensures { (result.count, result.octets) ≡ new_window }
    {
        Window {
            octets: [0; ROOM],
            count: 0,
        }
    }

    // The octets from `at` to the count go to the start, and the count is how many they are.
    pub fn keep(&mut self, at: usize)
        ensures { (self.new.count, self.new.octets) ≡ kept self.old.octets at self.old.count }
    {
        self.count = keep(&mut self.octets, at, self.count);
    }

    // The octets that were read.
    #[tactic(auto, unfolding(crate::specs::Window::held))]
    pub fn held(&self) -> &[u8]
        ensures { result.now ≡ held self.now.octets self.now.count }
    {
        self.octets.get(..self.count).unwrap_or(&[])
    }
}
