// The places of a book's phases, or locations, in their stations.

#![tactic(auto)]

ghost use Rattle.places.specs.Standing.{PlacesStand};

pub mod search;
pub mod table;

// The tables stand for every book of sound structure with at most 16 stations.
pub fn places_stand()
    ensures { PlacesStand }
{}
