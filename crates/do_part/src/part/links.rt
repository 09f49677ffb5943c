//! What a part has with its peers: entries of own objects, foreign objects received, lends and
//! asks.
mod asking;
mod closing;
mod entering;
mod leaving;
mod lending;
mod receiving;
mod telling;
