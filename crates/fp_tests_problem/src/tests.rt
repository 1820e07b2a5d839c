//! The tests, a file for each subject.

mod ends;
mod flatnet;
mod fleet;
mod generator;
mod kept;
mod knapsack;
mod labels;
mod longestarcs;
mod model;
mod present;
mod quotes;
mod reader;
mod records;
mod rows;
mod timenodes;
mod timetable;
mod tree;
mod yard;
