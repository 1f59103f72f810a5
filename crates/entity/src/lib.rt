// The numberings of units, registers, slots, values, classes and banks; places and their codes.
#![tactic(auto)]

ghost use Rattle.std.specs.Prelude.{◌≡◌, ◌<◌, ◌+◌, ◌*◌};
ghost use Rattle.entity.specs.Place.{reg, slot, code_of, place_at, read_place, place_of, named_of, unit_at, unit_of, unit_code, reg_unit, slot_unit};

// One number each, so that no two numberings are mixed up.
#[derive(Clone, Copy, PartialEq, Eq)]
pub struct RegUnit(pub u16);

#[derive(Clone, Copy, PartialEq, Eq)]
pub struct PhysReg(pub u16);

#[derive(Clone, Copy, PartialEq, Eq)]
pub struct SpillSlot(pub u16);

#[derive(Clone, Copy, PartialEq, Eq)]
pub struct Value(pub u16);

#[derive(Clone, Copy, PartialEq, Eq)]
pub struct RegClass(pub u16);

#[derive(Clone, Copy, PartialEq, Eq)]
pub struct RegBank(pub u16);

// 01: a place. The number is its place code.
#[derive(Clone, Copy, PartialEq, Eq)]
pub struct Allocation(pub u16);

#[derive(Drop)]
pub enum AllocationKind {
    PhysReg(PhysReg),
    SpillSlot(SpillSlot),
}

impl Allocation {
    // Creates an allocation into a `PhysReg`.
    pub fn reg(r: PhysReg) -> Self
        requires { r.0 < 32768 }
        ensures { result.0 ≡ code_of (reg r.0) }
    {
        Allocation(r.0 * 2 + 1)
    }

    // Creates an allocation into a `SpillSlot`.
    pub fn spillslot(s: SpillSlot) -> Self
        requires { s.0 < 32768 }
        ensures { result.0 ≡ code_of (slot s.0) }
    {
        Allocation(s.0 * 2)
    }

    // Expands the code into an enum that can be matched on.
    pub fn kind(self) -> AllocationKind
        ensures { place_of result ≡ place_at self.0 }
    {
        let c = self.0;
        if c % 2 == 1 {
            return AllocationKind::PhysReg(PhysReg(c / 2));
        }
        AllocationKind::SpillSlot(SpillSlot(c / 2))
    }

    // The place of a code from outside, of `regs` registers and `slots` slots; what names nothing is refused.
    pub fn read(code: u32, regs: u16, slots: u16) -> Option<AllocationKind>
        ensures { named_of result ≡ read_place regs slots code }
    {
        let i = code / 2;
        if code % 2 == 1 {
            if i < regs as u32 {
                return Some(AllocationKind::PhysReg(PhysReg(i as u16)));
            }
            return None;
        }
        if i < slots as u32 {
            return Some(AllocationKind::SpillSlot(SpillSlot(i as u16)));
        }
        None
    }
}

// A register unit or a spill slot as one number, for a table over all units.
#[derive(Clone, Copy, PartialEq, Eq)]
pub struct AllocationUnit(pub u16);

#[derive(Drop)]
pub enum AllocationUnitKind {
    Reg(RegUnit),
    SpillSlot(SpillSlot),
}

impl AllocationUnit {
    pub fn reg(u: RegUnit) -> Self
        requires { u.0 < 512 }
        ensures { result.0 ≡ unit_code (reg_unit u.0) }
    {
        AllocationUnit(u.0)
    }

    pub fn spillslot(s: SpillSlot) -> Self
        requires { s.0 < 65024 }
        ensures { result.0 ≡ unit_code (slot_unit s.0) }
    {
        AllocationUnit(512 + s.0)
    }

    // Register unit or slot, by the range in which the number falls.
    pub fn kind(self) -> AllocationUnitKind
        ensures { unit_of result ≡ unit_at self.0 }
    {
        let n = self.0;
        match n {
            0..=511 => AllocationUnitKind::Reg(RegUnit(n)),
            _ => AllocationUnitKind::SpillSlot(SpillSlot(n - 512)),
        }
    }
}
