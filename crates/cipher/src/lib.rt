// Block ciphers and packet ciphers, each behind one interface: AES-128, and CCM and GCM over any block cipher.
#![tactic(auto)]

mod aes;
mod block;
mod ccm;
mod gcm;
mod mode;
mod packet;
mod session;

pub use aes::Aes128;
pub use block::BlockCipher;
pub use ccm::Ccm;
pub use gcm::Gcm;
pub use packet::PacketCipher;
