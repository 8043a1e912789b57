// The numbers of the registers, as instructions name them.

pub(crate) const EAX: u8 = 0;

pub(crate) const ECX: u8 = 1;

pub(crate) const ESP: u8 = 4;

pub(crate) const EBP: u8 = 5;

pub(crate) const EDI: u8 = 7;
