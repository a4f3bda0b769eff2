// A message that a controller asks for (document 01, "The two machines").

// R: the terminal receives; T: it transmits. With the subaddress and the number of words.
#[derive(Clone, Copy)]
pub enum Message {
    Receive { subaddress: u8, words: u16 },
    Transmit { subaddress: u8, words: u16 },
}
