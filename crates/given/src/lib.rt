// What a call is given to read: the deck, its pool of text, and the settings of the run.
#![tactic(auto)]

use definition::Settings;

// It goes from function to function by its address.
#[derive(Clone, Copy)]
pub struct Given<'a> {
    pub deck: &'a [u8],
    pub pool: &'a [u8],
    pub settings: Settings,
}
