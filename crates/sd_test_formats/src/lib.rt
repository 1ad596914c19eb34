//! Tests of formats: fields of bits, the CRC, transport packets, sections and the tables in them, the site file, and
//! entitlement and control messages beside those of an independent implementation.
#![tactic(auto)]

#[cfg(test)]
mod bits;
#[cfg(test)]
mod crc;
#[cfg(test)]
mod ecm;
#[cfg(test)]
mod emm;
#[cfg(test)]
mod known;
#[cfg(test)]
mod packet;
#[cfg(test)]
mod packets;
#[cfg(test)]
mod psi;
#[cfg(test)]
mod section;
#[cfg(test)]
mod site;
#[cfg(test)]
mod site_chain;
