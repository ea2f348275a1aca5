use seq_base::Packet;

/// Bytes, and their sender.
#[derive(Drop)]
pub struct Envelope {
    pub from: u32,
    pub bytes: Packet,
}
