// The shortest form of an integer at a value position: its lead, and how many bytes of the number stand behind it.
#[derive(Clone, Copy, Debug, PartialEq, Eq)]
pub struct Form {
    pub lead: u8,
    pub size: usize,
}
