//! Numbers with a range. The ranges are a definition of this project.
ghost use Rattle.std.specs.Prelude.{◌≡◌, ◌≤◌, ◌<◌, ◌+◌, ◌↔◌, IsSome, IfSome};

/// A transaction's number, from 1 to 256 (`t1` to `t256`).
#[derive(Clone, Copy, PartialEq, Eq, Debug)]
pub struct TxNo {
    value: u32,
    pub ghost in_range: { (1 ≤ value) × (value ≤ 256) },
}

impl TxNo {
    /// The greatest number, which is also how many there are.
    pub const MAX: u32 = 256;

    /// The number n, or `None` where it is out of range.
    pub fn new(n: u32) -> Option<Self>
        ensures value { IfSome result (λ x. x.value ≡ n) }
        ensures in_range { IsSome result ↔ ((1 ≤ n) × (n ≤ TxNo.MAX)) }
    {
        if 1 <= n && n <= Self::MAX {
            Some(TxNo { value: n })
        } else {
            None
        }
    }

    /// The number.
    pub fn get(self) -> u32
        ensures value { result ≡ self.value }
        ensures low { 1 ≤ result }
        ensures high { result ≤ TxNo.MAX }
    {
        self.value
    }

    /// Its place among them all, from 0.
    pub fn index(self) -> usize
        ensures place { result + 1 ≡ self.value }
        ensures within { result < TxNo.MAX }
    {
        self.value as usize - 1
    }
}

/// An enlistment's number, from 1 to 9,999 (`e1` to `e9999`).
#[derive(Clone, Copy, PartialEq, Eq, Debug)]
pub struct EnlNo {
    value: u32,
    pub ghost in_range: { (1 ≤ value) × (value ≤ 9999) },
}

impl EnlNo {
    /// The greatest number, which is also how many there are.
    pub const MAX: u32 = 9999;

    /// The number n, or `None` where it is out of range.
    pub fn new(n: u32) -> Option<Self>
        ensures value { IfSome result (λ x. x.value ≡ n) }
        ensures in_range { IsSome result ↔ ((1 ≤ n) × (n ≤ EnlNo.MAX)) }
    {
        if 1 <= n && n <= Self::MAX {
            Some(EnlNo { value: n })
        } else {
            None
        }
    }

    /// The number.
    pub fn get(self) -> u32
        ensures value { result ≡ self.value }
        ensures low { 1 ≤ result }
        ensures high { result ≤ EnlNo.MAX }
    {
        self.value
    }

    /// Its place among them all, from 0.
    pub fn index(self) -> usize
        ensures place { result + 1 ≡ self.value }
        ensures within { result < EnlNo.MAX }
    {
        self.value as usize - 1
    }
}

/// A dependent clone's number, from 1 to 9,999 (`c1` to `c9999`).
#[derive(Clone, Copy, PartialEq, Eq, Debug)]
pub struct CloneNo {
    value: u32,
    pub ghost in_range: { (1 ≤ value) × (value ≤ 9999) },
}

impl CloneNo {
    /// The greatest number, which is also how many there are.
    pub const MAX: u32 = 9999;

    /// The number n, or `None` where it is out of range.
    pub fn new(n: u32) -> Option<Self>
        ensures value { IfSome result (λ x. x.value ≡ n) }
        ensures in_range { IsSome result ↔ ((1 ≤ n) × (n ≤ CloneNo.MAX)) }
    {
        if 1 <= n && n <= Self::MAX {
            Some(CloneNo { value: n })
        } else {
            None
        }
    }

    /// The number.
    pub fn get(self) -> u32
        ensures value { result ≡ self.value }
        ensures low { 1 ≤ result }
        ensures high { result ≤ CloneNo.MAX }
    {
        self.value
    }

    /// Its place among them all, from 0.
    pub fn index(self) -> usize
        ensures place { result + 1 ≡ self.value }
        ensures within { result < CloneNo.MAX }
    {
        self.value as usize - 1
    }
}

/// A scope's number, from 1 to 9,999 (`s1` to `s9999`).
#[derive(Clone, Copy, PartialEq, Eq, Debug)]
pub struct ScopeNo {
    value: u32,
    pub ghost in_range: { (1 ≤ value) × (value ≤ 9999) },
}

impl ScopeNo {
    /// The greatest number, which is also how many there are.
    pub const MAX: u32 = 9999;

    /// The number n, or `None` where it is out of range.
    pub fn new(n: u32) -> Option<Self>
        ensures value { IfSome result (λ x. x.value ≡ n) }
        ensures in_range { IsSome result ↔ ((1 ≤ n) × (n ≤ ScopeNo.MAX)) }
    {
        if 1 <= n && n <= Self::MAX {
            Some(ScopeNo { value: n })
        } else {
            None
        }
    }

    /// The number.
    pub fn get(self) -> u32
        ensures value { result ≡ self.value }
        ensures low { 1 ≤ result }
        ensures high { result ≤ ScopeNo.MAX }
    {
        self.value
    }

    /// Its place among them all, from 0.
    pub fn index(self) -> usize
        ensures place { result + 1 ≡ self.value }
        ensures within { result < ScopeNo.MAX }
    {
        self.value as usize - 1
    }
}

/// An actor's number, from 1 to 16 (`a1` to `a16`).
#[derive(Clone, Copy, PartialEq, Eq, Debug)]
pub struct ActorNo {
    value: u32,
    pub ghost in_range: { (1 ≤ value) × (value ≤ 16) },
}

impl ActorNo {
    /// The greatest number, which is also how many there are.
    pub const MAX: u32 = 16;

    /// The number n, or `None` where it is out of range.
    pub fn new(n: u32) -> Option<Self>
        ensures value { IfSome result (λ x. x.value ≡ n) }
        ensures in_range { IsSome result ↔ ((1 ≤ n) × (n ≤ ActorNo.MAX)) }
    {
        if 1 <= n && n <= Self::MAX {
            Some(ActorNo { value: n })
        } else {
            None
        }
    }

    /// The number.
    pub fn get(self) -> u32
        ensures value { result ≡ self.value }
        ensures low { 1 ≤ result }
        ensures high { result ≤ ActorNo.MAX }
    {
        self.value
    }

    /// Its place among them all, from 0.
    pub fn index(self) -> usize
        ensures place { result + 1 ≡ self.value }
        ensures within { result < ActorNo.MAX }
    {
        self.value as usize - 1
    }
}

/// A resource manager's number, from 1 to 16 (`r1` to `r16`).
#[derive(Clone, Copy, PartialEq, Eq, Debug)]
pub struct RmNo {
    value: u32,
    pub ghost in_range: { (1 ≤ value) × (value ≤ 16) },
}

impl RmNo {
    /// The greatest number, which is also how many there are.
    pub const MAX: u32 = 16;

    /// The number n, or `None` where it is out of range.
    pub fn new(n: u32) -> Option<Self>
        ensures value { IfSome result (λ x. x.value ≡ n) }
        ensures in_range { IsSome result ↔ ((1 ≤ n) × (n ≤ RmNo.MAX)) }
    {
        if 1 <= n && n <= Self::MAX {
            Some(RmNo { value: n })
        } else {
            None
        }
    }

    /// The number.
    pub fn get(self) -> u32
        ensures value { result ≡ self.value }
        ensures low { 1 ≤ result }
        ensures high { result ≤ RmNo.MAX }
    {
        self.value
    }

    /// Its place among them all, from 0.
    pub fn index(self) -> usize
        ensures place { result + 1 ≡ self.value }
        ensures within { result < RmNo.MAX }
    {
        self.value as usize - 1
    }
}
