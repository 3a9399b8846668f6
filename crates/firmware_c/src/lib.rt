// The static library for C: each function of the crate firmware under the name and with the promise that it has there. They stand twice, since
// `EveryEntry` of demands names firmware's, a crate can depend on no static library, and a static library exports only functions of its own.
#![tactic(auto)]

mod chassis;
mod journals;
mod looks;
mod version;
