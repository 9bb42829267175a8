//! What transactions and their actions over a page engine show as the engine of a store: definitions and
//! laws, and no code.
//!
//! It stands on `sg_actions`, whose steps are the store's records as they are, on `sg_ground`, over which
//! these records lead, and on `sg_reader`, by which what an action's take-off leaves reads as its begin
//! did.
#![tactic(auto)]
