mod bodies;
mod checkpoints;
mod limits;
mod receipts;
mod records;
