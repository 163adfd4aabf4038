/// A class of symbols as a book writes it: two numbers, whose meaning a kind gives.
#[derive(Clone, Copy, PartialEq, Eq, Default, Debug)]
pub struct Class {
    pub first: u32,
    pub second: u32,
}
