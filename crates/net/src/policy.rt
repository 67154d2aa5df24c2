// Policies (document 01, "The net"): what the processes hosted at a node may do.
ghost use Rattle.std.specs.Prelude.{◌≡◌};
ghost use Rattle.net.specs.Records.{no_rights, all_rights, zero_row, alike, with_rights};

use crate::locality::Locality;

// The rights over one address: i (take), r (read), o (put), e (send code).
#[derive(Clone, Copy, PartialEq, Eq, Debug)]
pub struct Rights {
    pub take: bool,
    pub read: bool,
    pub put: bool,
    pub send: bool,
}

// A node's row for an origin: the right n (create), and the rights over each address.
#[derive(Clone, Copy, PartialEq, Eq, Debug)]
pub struct Row {
    pub create: bool,
    pub rights: [Rights; 16],
}

impl Rights {
    #[tactic(auto, unfolding(crate::specs::Records::no_rights))]
    pub fn none() -> Rights
        ensures { result ≡ no_rights }
    {
        Rights {
            take: false,
            read: false,
            put: false,
            send: false,
        }
    }

    // Every right.
    #[tactic(auto, unfolding(crate::specs::Records::all_rights))]
    pub fn full() -> Rights
        ensures { result ≡ all_rights }
    {
        Rights {
            take: true,
            read: true,
            put: true,
            send: true,
        }
    }
}

impl Row {
    // A row that grants nothing.
    #[tactic(auto, unfolding(crate::specs::Records::zero_row))]
    pub fn zero() -> Row
        ensures { result ≡ zero_row }
    {
        Row {
            create: false,
            rights: [Rights::none(); 16],
        }
    }

    // The row for every origin.
    #[tactic(auto, unfolding(crate::specs::Records::alike))]
    pub fn alike(self) -> [Row; 16]
        ensures { result ≡ alike self }
    {
        [self; 16]
    }

    // The row with other rights over an address, or as it was past the last one.
    #[tactic(auto, unfolding(crate::specs::Records::with_rights))]
    pub fn with_rights(mut self, l: Locality, r: Rights) -> Row
        ensures { result ≡ with_rights self l r }
    {
        let at = l.0 as usize;
        if at < 16 {
            self.rights[at] = r;
        }
        self
    }
}
