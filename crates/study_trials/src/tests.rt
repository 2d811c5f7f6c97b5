// Hand-worked cases.
mod boxes;
mod layers;
mod lengths;
mod reasons;
mod rows;
mod sheets;
