// Pack IRIs: composed of a package IRI and a part name, and resolved.
#![tactic(auto)]

pub mod pack;
