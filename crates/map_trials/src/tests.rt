// Hand-worked cases.
mod jobs;
mod memo;
mod rows;
mod ticks_and_grades;
