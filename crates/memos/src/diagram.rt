//! A diagram by its name: none, always, or a place of a node memory.
//! The name is one number of four bytes; `seen` reads it, and no two names read alike. A number and no enum: with names of
//! eight bytes a table of 65,536 nodes and questions took 1.1 to 1.3 times as long (benchmark/src/bin/layouts.rs), and the
//! engine over it is to take no longer than the plain one, whose node is one word.
ghost use Rattle.std.specs.Prelude.{◌≡◌, ◌+◌, ◌^◌, ◌≤◌, MatchOption};
ghost use Rattle.memos.specs.Diagrams.{seen};

#[derive(Clone, Copy, PartialEq, Eq)]
pub struct Diagram {
    pub(crate) code: u32,
}

// What a diagram is.
#[derive(Clone, Copy, PartialEq, Eq)]
pub enum View {
    None,
    Always,
    Node(u32),
}

impl Diagram {
    // The diagram that nothing passes.
    pub fn none() -> Diagram
        ensures { seen result ≡ View.None }
    {
        Diagram { code: 0 }
    }

    // The diagram that everything passes.
    pub fn always() -> Diagram
        ensures { seen result ≡ View.Always }
    {
        Diagram { code: 1 }
    }

    // The diagram at a place of a node memory, or none for the two places that are beyond a name.
    pub fn node(place: u32) -> Option<Diagram>
        ensures { MatchOption result (2 ^ 32 ≤ place + 2) (λ d. seen d ≡ View.Node place) }
    {
        let code = place.checked_add(2)?;
        Some(Diagram { code })
    }

    // What the diagram is.
    pub fn view(self) -> View
        ensures { result ≡ seen self }
    {
        match self.code {
            0 => View::None,
            1 => View::Always,
            past => View::Node(past - 2),
        }
    }
}
