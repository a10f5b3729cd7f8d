//! Images of kernels: what packs them, gzip files, and the tables that stand in them.

#[cfg(test)]
mod gzip_files;
#[cfg(test)]
mod packings;
#[cfg(test)]
mod tables;
